// The lines of a listing. Each is put at a place of the output, and the place after it is handed on: with a struct that held the
// lent output, each of these functions would promise besides that it still holds that one.
ghost use Rattle.std.specs.Prelude.{◌≡◌, ◌+◌, ◌≤◌, length};
ghost use Rattle.encoding.specs.{decimal, begins, put};
ghost use Rattle.archive.specs.Walk.{walk};
ghost use Rattle.archive.specs.Listing.{most_archive, listing_cells, listing_bytes, counts, guard_field, verdict_word, answer_word, check_word, record_line, stop_line, end_line, lines_of};
ghost use Rattle.archive.specs.Listing.{field as listing_field};

use layout::{GuardTrace, Parts};
use record::Checked;
use refusal::Refusal;

// Lists the records of an archive from the last, checked in the table, and answers the place after the
// last line.
pub fn lines(archive: &[u8], table: &mut [u16], out: &mut [u8]) -> usize
    requires { (length archive.now ≤ most_archive) × (length table.old ≡ listing_cells) × (length out.old ≡ listing_bytes) }
    ensures place { result ≡ length (lines_of 0 (walk archive.now)) }
    ensures output { out.new ≡ begins (lines_of 0 (walk archive.now)) out.old }
{
    let mut left = archive.len();
    let mut listed: u32 = 0;
    let mut at: usize = 0;
    // What is left says where the next turn stands: a `for` over the archive has no step of a record's size.
    while 0 < left {
        let examined = record::examine(&archive[..left], table);
        let parts = match examined.reading {
            Ok(parts) => parts,
            Err(refusal) => return stop_line(out, at, listed + 1, refusal),
        };
        let start = parts.program.start;
        let size = (left - start) as u32;
        at = record_line(out, at, listed + 1, size, parts, examined.checked);
        left = start;
        listed += 1;
    }
    end_line(out, at, listed)
}

// The line of a record: ordinal, record length, n, in format 3 the guard trace's count, verdict word, check word.
fn record_line(
    out: &mut [u8],
    at: usize,
    ordinal: u32,
    size: u32,
    parts: Parts,
    checked: Result<Checked, Refusal>,
) -> usize
    requires { at + length (record_line ordinal size parts checked) ≤ length out.old }
    ensures place { result ≡ at + length (record_line ordinal size parts checked) }
    ensures output { out.new ≡ put at (record_line ordinal size parts checked) out.old }
{
    let after_ordinal = field(out, at, ordinal);
    let after_size = field(out, after_ordinal, size);
    let after_counts = counts(out, after_size, parts.n, parts.guard);
    let after_verdict = encoding::put(out, after_counts, verdict_word(parts.verdict));
    let after_space = encoding::put(out, after_verdict, b" ");
    let after_check = check_word(out, after_space, checked);
    encoding::put(out, after_check, b"\n")
}

// The numbers of the traces' samples, the ram's first.
fn counts(out: &mut [u8], at: usize, n: u16, guard: Option<GuardTrace>) -> usize
    requires { at + length (counts n guard) ≤ length out.old }
    ensures place { result ≡ at + length (counts n guard) }
    ensures output { out.new ≡ put at (counts n guard) out.old }
{
    let after_ram = field(out, at, n as u32);
    guard_field(out, after_ram, guard)
}

// The number of a guard trace's samples, and the space after it; nothing where there is no such trace.
fn guard_field(out: &mut [u8], at: usize, guard: Option<GuardTrace>) -> usize
    requires { at + length (guard_field guard) ≤ length out.old }
    ensures place { result ≡ at + length (guard_field guard) }
    ensures output { out.new ≡ put at (guard_field guard) out.old }
{
    match guard {
        None => at,
        Some(guard) => field(out, at, guard.samples as u32),
    }
}

// The line of a refused record.
fn stop_line(out: &mut [u8], at: usize, ordinal: u32, refusal: Refusal) -> usize
    requires { at + length (stop_line ordinal refusal) ≤ length out.old }
    ensures place { result ≡ at + length (stop_line ordinal refusal) }
    ensures output { out.new ≡ put at (stop_line ordinal refusal) out.old }
{
    let after_word = encoding::put(out, at, b"stop ");
    let after_ordinal = field(out, after_word, ordinal);
    let after_number = encoding::put_decimal(out, after_ordinal, u32::from(refusal));
    encoding::put(out, after_number, b"\n")
}

// The line after the last record.
fn end_line(out: &mut [u8], at: usize, listed: u32) -> usize
    requires { at + length (end_line listed) ≤ length out.old }
    ensures place { result ≡ at + length (end_line listed) }
    ensures output { out.new ≡ put at (end_line listed) out.old }
{
    let after_word = encoding::put(out, at, b"end ");
    let after_count = encoding::put_decimal(out, after_word, listed);
    encoding::put(out, after_count, b"\n")
}

// A number, and the space after it.
fn field(out: &mut [u8], at: usize, n: u32) -> usize
    requires { at + length (listing_field (decimal n)) ≤ length out.old }
    ensures place { result ≡ at + length (listing_field (decimal n)) }
    ensures output { out.new ≡ put at (listing_field (decimal n)) out.old }
{
    let after_number = encoding::put_decimal(out, at, n);
    encoding::put(out, after_number, b" ")
}

// The word of a stored verdict.
#[tactic(auto, unfolding(crate::specs::Listing::verdict_word))]
fn verdict_word(verdict: u8) -> &'static [u8]
    ensures { result.now ≡ verdict_word verdict }
{
    match verdict {
        0 => b"forever",
        1 => b"no",
        2 => b"yes",
        3 => b"head",
        _ => b"tail",
    }
}

// The word of what a check answers.
#[tactic(auto, unfolding(crate::specs::Listing::answer_word))]
fn answer_word(checked: Checked) -> &'static [u8]
    ensures { result.now ≡ answer_word checked }
{
    match checked {
        Checked::Agrees(_) => b"agrees",
        Checked::Differs(_) => b"differs",
    }
}

// That word, or the number of the check's refusal.
fn check_word(out: &mut [u8], at: usize, checked: Result<Checked, Refusal>) -> usize
    requires { at + length (check_word checked) ≤ length out.old }
    ensures place { result ≡ at + length (check_word checked) }
    ensures output { out.new ≡ put at (check_word checked) out.old }
{
    match checked {
        Ok(answer) => encoding::put(out, at, answer_word(answer)),
        Err(refusal) => encoding::put_decimal(out, at, u32::from(refusal)),
    }
}
