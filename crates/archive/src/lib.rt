// Archives: records end to end, walked from the last byte backwards, and the text that lists them.
#![tactic(auto)]

mod lines;

ghost use Rattle.std.specs.Prelude.{◌≡◌, length, take};
ghost use Rattle.encoding.specs.{begins};
ghost use Rattle.archive.specs.Walk.{step_in, step_answer, step_numbers};
ghost use Rattle.archive.specs.Listing.{listing};

use layout::Parts;
use refusal::Refusal;

// The longest archive that is listed, the cells that its records are checked in, and room for every listing: a
// record of at least 19 bytes has a line of at most 34, one of at least 21, with a guard trace, a line of at most 39, so less
// than two for each of its bytes, and the last line has at most 64: 2 × 32,768 + 64.
pub const MOST_ARCHIVE: usize = 32768;

pub const CELLS: usize = 16384;

pub const TEXT: usize = 65600;

// The last record among the first `left` bytes of an archive, or none where no bytes are left. The bytes before it, with which
// a walk goes on, are those before its program.
pub fn last(archive: &[u8], left: usize) -> Result<Option<Parts>, Refusal>
    ensures answer { result ≡ step_in (take left archive.now) }
    ensures numbers { step_answer result ≡ step_numbers (take left archive.now) }
{
    let bytes = &archive[..left.min(archive.len())];
    if bytes.is_empty() {
        return Ok(None);
    }
    let parts = record::read(bytes)?;
    Ok(Some(parts))
}

// Writes the listing of an archive to the front of the output, and answers how long it is.
pub fn list(archive: &[u8], out: &mut [u8; TEXT]) -> usize
    ensures size { result ≡ length (listing archive.now) }
    ensures output { out.new ≡ begins (listing archive.now) out.old }
{
    if MOST_ARCHIVE < archive.len() {
        return encoding::put(out, 0, b"too long\n");
    }
    let mut table = [0u16; CELLS];
    lines::lines(archive, &mut table, out)
}
