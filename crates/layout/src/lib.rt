// The bytes of a record: how its parts stand in them, whether it is read or written. Every operation answers for all
// bytes and numbers; a part ends where the bytes do, and a record that there is no room for is not written.
#![tactic(auto)]

mod formats;
mod pieces;
mod trailer;

ghost use Rattle.std.specs.Prelude.{◌≡◌};
ghost use Rattle.layout.specs.Trailer.{part_of, located};
ghost use Rattle.semantics.specs.Handed.{handed};
ghost use Rattle.layout.specs.Filling.{filled};

use refusal::Refusal;
use semantics::{Sort, Verdict};

// The numbers of the formats: 1 with a site label, 2 without, 3 with a guard trace; records are written in 2 and 3. The mark
// of a record.
pub const FORMAT_1: u8 = 1;

pub const FORMAT_2: u8 = 2;

pub const FORMAT_3: u8 = 3;

pub const MARK: u8 = 0x52;

// The bytes of a site label; of the verdict byte and the pass count, which in formats 2 and 3 are all that stands between
// traces and trailer; of the trailer, and of that of format 3.
pub const LABEL: usize = 8;

pub const RESULT: usize = 5;

pub const TRAILER: usize = 8;

pub const GUARD_TRAILER: usize = 10;

// The highest number of a verdict.
pub const MOST_VERDICT: u8 = 4;

// A format of records: its number, and whether its records have a site label and a guard trace. These are flags, and the
// number is no enum, since the theorems on older releases speak of any list of formats.
#[derive(Clone, Copy, PartialEq, Eq, Debug)]
pub struct Format {
    pub number: u8,
    pub labelled: bool,
    pub guarded: bool,
}

// A part of the caller's bytes.
#[derive(Clone, Copy, PartialEq, Eq, Debug)]
pub struct Span {
    pub start: usize,
    pub length: usize,
}

// The guard trace of a record: where its bytes stand, and the number of its samples.
#[derive(Clone, Copy, PartialEq, Eq, Debug)]
pub struct GuardTrace {
    pub span: Span,
    pub samples: u16,
}

// The parts of a record: the number of its format, where they stand in the caller's bytes, and the numbers stored; `trace`
// and `n` are the ram's, and the label has eight bytes. The bytes before the record are those before its program. Format and
// verdict are the numbers in the bytes and no enums, since `contents_at` and the theorems on it speak of those.
#[derive(Clone, Copy, PartialEq, Eq, Debug)]
pub struct Parts {
    pub format: u8,
    pub program: Span,
    pub trace: Span,
    pub n: u16,
    pub guard: Option<GuardTrace>,
    pub label: Option<Span>,
    pub verdict: u8,
    pub passes: u32,
}

// Locates the parts of the record that the bytes end in; its program is not judged.
pub fn locate(bytes: &[u8]) -> Result<Parts, Refusal>
    ensures { result ≡ located bytes.now }
{
    let len = bytes.len();
    if len < TRAILER {
        return Err(Refusal::TrailerMissing);
    }
    if bytes[len - 1] != MARK {
        return Err(Refusal::MarkOrFormat);
    }
    let number = bytes[len - 2];
    if !formats::knows(number) {
        return Err(Refusal::MarkOrFormat);
    }
    let format = formats::numbered(number);
    let size = formats::trailer_bytes(format);
    if len < size {
        return Err(Refusal::TrailerMissing);
    }
    let fields = trailer::Fields::read(bytes, format, len - size);
    if fields.are_faulty(format) {
        return Err(Refusal::TrailerFields);
    }
    fields.parts(bytes, format)
}

// A part of the bytes, as far as they go.
#[tactic(auto, unfolding(crate::specs::Trailer::part_of), using(std::proofs::lemmas::List::take_min, std::proofs::lemmas::List::drop_min, encoding::proofs::Putting::part_rest))]
pub fn part(bytes: &[u8], span: Span) -> &[u8]
    ensures { result.now ≡ part_of bytes.now span }
{
    let rest = &bytes[span.start.min(bytes.len())..];
    &rest[..span.length.min(rest.len())]
}

// Writes a record to the front of the output, with the traces' very bytes: of format 2, or with two traces of format 3. Where
// these are not those of n and m samples, the verdict has a number that no record holds, or there is no room, nothing is
// written. With one trace `guard` has no bytes and `m` is 0. The traces come one by one, as docs/PROMISES.md has the clause over them.
pub fn fill(
    program: &[u8],
    sort: Sort,
    ram: &[u8],
    n: u16,
    guard: &[u8],
    m: u16,
    verdict: Verdict,
    out: &mut [u8],
)
    ensures { out.new ≡ filled program.now (handed sort ram.now n guard.now m) verdict out.old }
{
    if !pieces::is_packing(ram, n as usize) || !pieces::is_packing(guard, m as usize) {
        return;
    }
    let number = semantics::verdict_number(verdict.decision);
    if (MOST_VERDICT as u32) < number {
        return;
    }
    let guard = pieces::guard_kept(sort, guard);
    let second = ram.len() + guard.len() + RESULT;
    let first = program.len() + second;
    if out.len() < first + pieces::trailer_size(sort) {
        return;
    }
    let after_program = encoding::put(out, 0, program);
    let after_ram = encoding::put(out, after_program, ram);
    let after_guard = encoding::put(out, after_ram, guard);
    let result = pieces::verdict_bytes(number as u8, verdict.passes);
    let after_result = encoding::put(out, after_guard, &result);
    let start = pieces::trailer_start(first, second, n);
    let after_start = encoding::put(out, after_result, &start);
    pieces::put_trailer_end(out, after_start, sort, m);
}
