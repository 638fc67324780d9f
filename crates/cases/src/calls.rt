// The calls of the library that the operations make.
use crate::answers;
use prepare::Handed;
use ring::{NotAdded, Ring};
use script::fields::Lent;
use script::printing;
use std::io;
use std::io::Write;

// A program, and the traces that an operation is handed with it.
#[derive(Clone, Copy)]
pub struct Rule<'a> {
    pub program: &'a [u8],
    pub handed: Handed<'a>,
}

// A call, with what it is handed.
#[derive(Clone, Copy)]
pub enum Call<'a> {
    Add {
        slots: Lent,
        ring: Ring,
        sample: &'a [u8],
    },
    Take {
        slots: &'a [u8],
        ring: Ring,
        output: Lent,
    },
    Fill {
        slots: Lent,
        samples: &'a [u8],
    },
    Check(&'a [u8]),
    Read(&'a [u8]),
    Last {
        archive: &'a [u8],
        left: usize,
    },
    Walk(&'a [u8]),
    List(&'a [u8]),
    Evaluate {
        rule: Rule<'a>,
        table: Lent,
    },
    Pass {
        rule: Rule<'a>,
        table: Lent,
    },
    Follow(Rule<'a>),
    Write {
        rule: Rule<'a>,
        table: Lent,
        output: Lent,
    },
    CheckRecord {
        record: &'a [u8],
        table: Lent,
    },
    Examine {
        record: &'a [u8],
        table: Lent,
    },
}

// Makes a call, and prints its answer and the memories that it may have written.
pub fn perform<W: Write>(
    writer: &mut W,
    call: Call<'_>,
    written: &mut [u8],
    cells: &mut [u16],
) -> io::Result<()> {
    match call {
        Call::Add {
            slots,
            ring,
            sample,
        } => {
            let sample = sample.first().copied().unwrap_or(0);
            answers::added(writer, ring::add(slots.of(written), ring, sample))?;
            printing::memory(writer, written, slots)
        }
        Call::Take {
            slots,
            ring,
            output,
        } => {
            let taken = ring::take_trace(slots, ring, output.of(written));
            answers::print(writer, taken, answers::samples)?;
            printing::memory(writer, written, output)
        }
        Call::Fill { slots, samples } => {
            answers::added(writer, filled(slots.of(written), samples))?;
            printing::memory(writer, written, slots)
        }
        Call::Check(program) => {
            answers::print(writer, rule::check_program(program), answers::accepted)
        }
        Call::Read(record) => answers::print(writer, record::read(record), answers::parts),
        Call::Last { archive, left } => {
            answers::print(writer, archive::last(archive, left), answers::step)
        }
        Call::Walk(archive) => walk(writer, archive),
        Call::List(archive) => list(writer, archive),
        Call::Evaluate { rule, table } => {
            let evaluated = evaluate::evaluate(rule.program, rule.handed, table.of(cells));
            answers::print(writer, evaluated, answers::verdict)?;
            printing::memory(writer, cells, table)
        }
        Call::Pass { rule, table } => {
            let passed = evaluate::pass(rule.program, rule.handed, table.of(cells));
            answers::print(writer, passed, answers::passed)?;
            printing::memory(writer, cells, table)
        }
        Call::Follow(rule) => {
            let followed = follow::follow(rule.program, rule.handed);
            answers::print(writer, followed, answers::followed)
        }
        Call::Write {
            rule,
            table,
            output,
        } => {
            let recorded = record::write(
                rule.program,
                rule.handed,
                table.of(cells),
                output.of(written),
            );
            answers::print(writer, recorded, answers::written)?;
            printing::memory(writer, cells, table)?;
            printing::memory(writer, written, output)
        }
        Call::CheckRecord { record, table } => {
            write!(writer, " read")?;
            answers::print(writer, record::read(record), answers::parts)?;
            write!(writer, ", check")?;
            let checked = record::check(record, table.of(cells));
            answers::print(writer, checked, answers::checked)?;
            printing::memory(writer, cells, table)
        }
        Call::Examine { record, table } => {
            let examined = record::examine(record, table.of(cells));
            write!(writer, " read")?;
            answers::print(writer, examined.reading, answers::parts)?;
            write!(writer, ", check")?;
            answers::print(writer, examined.checked, answers::checked)?;
            printing::memory(writer, cells, table)
        }
    }
}

// Adds samples to a new ring. An add that is refused leaves the ring as it was, so each after it is refused too.
fn filled(slots: &mut [u8], samples: &[u8]) -> Result<Ring, NotAdded> {
    let mut ring = ring::new();
    for sample in samples {
        ring = ring::add(slots, ring, *sample)?;
    }
    Ok(ring)
}

// A line for each step from the end of an archive, of which there are no more than it has bytes, and the last.
fn walk<W: Write>(writer: &mut W, archive: &[u8]) -> io::Result<()> {
    let mut left = archive.len();
    for _ in 0..=archive.len() {
        let step = archive::last(archive, left);
        write!(writer, "\nlast of {left}:")?;
        answers::print(writer, step, answers::step)?;
        let Ok(Some(found)) = step else {
            return Ok(());
        };
        left = found.program.start;
    }
    Ok(())
}

// The listing, without the last end of a line.
fn list<W: Write>(writer: &mut W, archive: &[u8]) -> io::Result<()> {
    let mut out = [0u8; archive::TEXT];
    let size = archive::list(archive, &mut out);
    writeln!(writer)?;
    let text = out.get(..size).unwrap_or(&[]);
    match text.split_last() {
        Some((_, lines)) => writer.write_all(lines),
        None => Ok(()),
    }
}
