// Records: the program, the trace or traces, the verdict and the pass count, and in format 1 a site label, in one string of
// bytes that is read from its last byte backwards. Every operation answers for all bytes and numbers; a refusal
// changes nothing that is lent.
#![tactic(auto)]

ghost use Rattle.std.specs.Prelude.{◌≡◌, ◌∷◌, length, Some};
ghost use Rattle.refusal.specs.{answer_if};
ghost use Rattle.semantics.specs.Verdicts.{verdict_values};
ghost use Rattle.rule.specs.Reading.{program_check};
ghost use Rattle.prepare.specs.Checks.{handed_in};
ghost use Rattle.layout.specs.Trailer.{part_of, parts_in, read_by};
ghost use Rattle.record.specs.Reading.{read_check, reading, parts_values, read_answer};
ghost use Rattle.record.specs.Recording.{worked_out, record_of, write_check, writing, written, written_answer, output_written, table_written, RecordDemand3};
ghost use Rattle.record.specs.Checking.{checking, checked_answer, check_numbers, table_checked, CheckDemand3, compared_in, examining, agrees, compared};
ghost use Rattle.record.specs.Steps.{beside_bytes, sort_held, guard_bytes, guard_held};

use layout::{GuardTrace, Parts};
use prepare::Handed;
use refusal::Refusal;
use semantics::{Sort, Verdict};

// What recording answers: the record's length and the verdict that went into it.
#[derive(Clone, Copy, PartialEq, Eq)]
pub struct Written {
    pub length: usize,
    pub verdict: Verdict,
}

// What checking answers, with the verdict that it worked out.
#[derive(Clone, Copy, PartialEq, Eq)]
pub enum Checked {
    Agrees(Verdict),
    Differs(Verdict),
}

// What reading and checking answer.
#[derive(Clone, Copy, PartialEq, Eq)]
pub struct Examined {
    pub reading: Result<Parts, Refusal>,
    pub checked: Result<Checked, Refusal>,
}

// Records a program on the traces that it is handed, which say its sort: works the verdict out over the lent table and writes the
// record, of format 2 with one trace and of format 3 with two, to the front of the output.
pub fn write(
    program: &[u8],
    handed: Handed,
    table: &mut [u16],
    out: &mut [u8],
) -> Result<Written, Refusal>
    ensures answer { result ≡ writing program.now (handed_in handed.entry) (length table.old) (length out.old) }
    ensures numbers { written_answer result ≡ answer_if (write_check program.now (handed_in handed.entry) (length table.old) (length out.old)) (length (record_of program.now (handed_in handed.entry)) ∷ verdict_values (worked_out program.now (handed_in handed.entry))) }
    ensures output { out.new ≡ output_written program.now (handed_in handed.entry) (length table.old) out.old }
    ensures cells { table.new ≡ table_written program.now (handed_in handed.entry) table.old (length out.old) }
    ensures decides { RecordDemand3 program.now (handed_in handed.entry) (length table.old) (length out.old) (λ v. result ≡ written (length (record_of program.now (handed_in handed.entry))) v) table.new }
{
    let size = program.len()
        + trace::bytes_for(handed.n)
        + beside(handed.sort, handed.m)
        + layout::RESULT;
    if out.len() < size {
        evaluate::check(program, handed, table.len())?;
        return Err(Refusal::OutputShort);
    }
    let verdict = evaluate::evaluate(program, handed, table)?;
    layout::fill(
        program,
        handed.sort,
        handed.ram,
        handed.n as u16,
        handed.guard,
        handed.m as u16,
        verdict,
        out,
    );
    Ok(Written {
        length: size,
        verdict,
    })
}

// The bytes of a record of a sort beside its program, ram trace, verdict and passes: those of m samples of the guard, if there
// are two traces, and the trailer's.
#[tactic(auto, unfolding(trace::specs::bytes_for))]
fn beside(sort: Sort, m: usize) -> usize
    ensures { result ≡ beside_bytes sort m }
{
    match sort {
        Sort::One => layout::TRAILER,
        Sort::Two => trace::bytes_for(m) + layout::GUARD_TRAILER,
    }
}

// Reads the record that the bytes end in.
pub fn read(bytes: &[u8]) -> Result<Parts, Refusal>
    ensures answer { result ≡ reading bytes.now }
    ensures numbers { read_answer result ≡ answer_if (read_check bytes.now) (parts_values (parts_in bytes.now)) }
{
    let parts = layout::locate(bytes)?;
    judged(bytes, parts)
}

// The parts of a record, where its program is accepted.
fn judged(bytes: &[u8], parts: Parts) -> Result<Parts, Refusal>
    ensures { result ≡ read_by (program_check (Some (sort_held parts.guard)) (part_of bytes.now parts.program)) parts }
{
    let program = layout::part(bytes, parts.program);
    rule::check_sorts(program, Some(sort_of(parts.guard)))?;
    Ok(parts)
}

// Checks the record that the bytes end in: works verdict and passes out again over the lent table.
#[tactic(auto, unfolding(crate::specs::Checking::examining), using(crate::proofs::Examining::checking_numbers))]
pub fn check(bytes: &[u8], table: &mut [u16]) -> Result<Checked, Refusal>
    ensures answer { result ≡ checking bytes.now (length table.old) }
    ensures numbers { checked_answer result ≡ check_numbers bytes.now (length table.old) }
    ensures cells { table.new ≡ table_checked bytes.now table.old }
    ensures decides { CheckDemand3 bytes.now (length table.old) (λ v. result ≡ compared_in bytes.now v) table.new }
{
    examine(bytes, table).checked
}

// Reads and checks the record that the bytes end in. Its program is judged once, unless evaluating refuses the record: whether
// it is read is then asked of the program alone.
pub fn examine(bytes: &[u8], table: &mut [u16]) -> Examined
    ensures answer { result ≡ examining bytes.now (length table.old) }
    ensures cells { table.new ≡ table_checked bytes.now table.old }
    ensures decides { CheckDemand3 bytes.now (length table.old) (λ v. result.checked ≡ compared_in bytes.now v) table.new }
{
    let parts = match layout::locate(bytes) {
        Ok(parts) => parts,
        Err(refusal) => {
            return Examined {
                reading: Err(refusal),
                checked: Err(refusal),
            };
        }
    };
    let handed = Handed {
        sort: sort_of(parts.guard),
        ram: layout::part(bytes, parts.trace),
        n: parts.n as usize,
        guard: guard_part(bytes, parts.guard),
        m: guard_samples(parts.guard),
    };
    match evaluate::evaluate(layout::part(bytes, parts.program), handed, table) {
        Ok(verdict) => Examined {
            reading: Ok(parts),
            checked: Ok(compare(parts, verdict)),
        },
        Err(refusal) => Examined {
            reading: judged(bytes, parts),
            checked: Err(refusal),
        },
    }
}

// The sort of the program of a record, by its guard trace.
fn sort_of(guard: Option<GuardTrace>) -> Sort
    ensures { result ≡ sort_held guard }
{
    match guard {
        None => Sort::One,
        Some(_) => Sort::Two,
    }
}

// The bytes of a record's guard trace, none where there is no such trace.
fn guard_part(bytes: &[u8], guard: Option<GuardTrace>) -> &[u8]
    ensures { result.now ≡ guard_bytes bytes.now guard }
{
    match guard {
        None => &bytes[..0],
        Some(guard) => layout::part(bytes, guard.span),
    }
}

// The number of its samples.
fn guard_samples(guard: Option<GuardTrace>) -> usize
    ensures { result ≡ guard_held guard }
{
    match guard {
        None => 0,
        Some(guard) => guard.samples as usize,
    }
}

// Whether a record's verdict and pass count are those worked out.
fn compare(parts: Parts, verdict: Verdict) -> Checked
    ensures { result ≡ compared (agrees parts.verdict parts.passes verdict) verdict }
{
    let number = semantics::verdict_number(verdict.decision);
    if parts.verdict as u32 == number && parts.passes == verdict.passes {
        Checked::Agrees(verdict)
    } else {
        Checked::Differs(verdict)
    }
}
