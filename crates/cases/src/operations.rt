// The operations: a line is read as a call of the library, which is made and printed.
use crate::calls;
use crate::calls::{Call, Rule};
use prepare::Handed;
use ring::Ring;
use script::fields;
use script::fields::Lent;
use script::words::Word;
use std::io::Write;
use std::{io, mem};

// The bytes that are read in a case, the bytes and the cells that may be written.
const GIVEN: usize = 40000;

const WRITTEN: usize = 5000;

const CELLS: usize = 5000;

// Runs a line; false where it cannot be read.
pub fn line<W: Write>(writer: &mut W, line: &[u8]) -> io::Result<bool> {
    if line.is_empty() || line.starts_with(b"#") {
        Ok(true)
    } else {
        case(writer, line)
    }
}

fn case<W: Write>(writer: &mut W, line: &[u8]) -> io::Result<bool> {
    let mut given = [0u8; GIVEN];
    let mut written = [0u8; WRITTEN];
    let mut cells = [0u16; CELLS];
    let Some((name, fields)) = named(line) else {
        return Ok(false);
    };
    let Some(call) = read(fields, &mut given, &mut written, &mut cells) else {
        return Ok(false);
    };
    writer.write_all(name)?;
    calls::perform(writer, call, &mut written, &mut cells)?;
    writer.write_all(b"\n")?;
    Ok(true)
}

// The name of a case with its colon, and the fields after it.
fn named(line: &[u8]) -> Option<(&[u8], &[u8])> {
    let colon = line.iter().position(|byte| *byte == b':')?;
    line.split_at_checked(colon.checked_add(1)?)
}

// The call that a case describes; none where its fields are not those of an operation.
fn read<'a>(
    line: &[u8],
    given: &'a mut [u8],
    written: &mut [u8],
    cells: &mut [u16],
) -> Option<Call<'a>> {
    let mut fields = Fields { line, given };
    let operation = fields.next()?;
    let call = match operation {
        b"add" => Call::Add {
            slots: fields.lent(written)?,
            ring: fields.ring()?,
            sample: fields.bytes()?,
        },
        b"take" => Call::Take {
            slots: fields.bytes()?,
            ring: fields.ring()?,
            output: fields.lent(written)?,
        },
        b"fill" => Call::Fill {
            slots: fields.lent(written)?,
            samples: fields.bytes()?,
        },
        b"check" => Call::Check(fields.bytes()?),
        b"read" => Call::Read(fields.bytes()?),
        b"last" => Call::Last {
            archive: fields.bytes()?,
            left: fields.number()?,
        },
        b"walk" => Call::Walk(fields.bytes()?),
        b"list" => Call::List(fields.bytes()?),
        b"evaluate" => Call::Evaluate {
            rule: fields.rule()?,
            table: fields.lent(cells)?,
        },
        b"pass" => Call::Pass {
            rule: fields.rule()?,
            table: fields.lent(cells)?,
        },
        b"follow" => Call::Follow(fields.rule()?),
        b"write" => Call::Write {
            rule: fields.rule()?,
            table: fields.lent(cells)?,
            output: fields.lent(written)?,
        },
        b"evaluate-two" => Call::Evaluate {
            rule: fields.two_contacts()?,
            table: fields.lent(cells)?,
        },
        b"pass-two" => Call::Pass {
            rule: fields.two_contacts()?,
            table: fields.lent(cells)?,
        },
        b"follow-two" => Call::Follow(fields.two_contacts()?),
        b"write-two" => Call::Write {
            rule: fields.two_contacts()?,
            table: fields.lent(cells)?,
            output: fields.lent(written)?,
        },
        b"check-record" => Call::CheckRecord {
            record: fields.bytes()?,
            table: fields.lent(cells)?,
        },
        b"examine" => Call::Examine {
            record: fields.bytes()?,
            table: fields.lent(cells)?,
        },
        _ => return None,
    };
    if fields.line.is_empty() {
        Some(call)
    } else {
        None
    }
}

// What is left of a line, and of the room for the bytes that are read.
#[derive(Drop)]
struct Fields<'l, 'a> {
    line: &'l [u8],
    given: &'a mut [u8],
}

impl<'l, 'a> Fields<'l, 'a> {
    // The bytes between a space and the next one.
    fn next(&mut self) -> Option<&'l [u8]> {
        let text = self.line.strip_prefix(b" ")?;
        let end = text
            .iter()
            .position(|byte| *byte == b' ')
            .unwrap_or(text.len());
        let (field, rest) = text.split_at_checked(end)?;
        self.line = rest;
        Some(field)
    }

    fn number(&mut self) -> Option<usize> {
        fields::number(self.next()?)
    }

    // Words that may be written.
    fn lent<T: Word>(&mut self, room: &mut [T]) -> Option<Lent> {
        fields::lend(self.next()?, room)
    }

    // Bytes that are read.
    fn bytes(&mut self) -> Option<&'a [u8]> {
        let field = self.next()?;
        let given = mem::replace(&mut self.given, &mut []);
        let lent = fields::lend(field, given)?;
        let (bytes, rest) = given.split_at_mut_checked(lent.size)?;
        self.given = rest;
        bytes.get(lent.from..lent.to)
    }

    fn ring(&mut self) -> Option<Ring> {
        Some(Ring {
            next: self.number()?,
            count: self.number()?,
        })
    }

    fn rule(&mut self) -> Option<Rule<'a>> {
        let program = self.bytes()?;
        let trace = self.bytes()?;
        let handed = Handed::one(trace, self.number()?);
        Some(Rule { program, handed })
    }

    fn two_contacts(&mut self) -> Option<Rule<'a>> {
        let program = self.bytes()?;
        let ram = self.bytes()?;
        let n = self.number()?;
        let guard = self.bytes()?;
        let handed = Handed::two(ram, n, guard, self.number()?);
        Some(Rule { program, handed })
    }
}
