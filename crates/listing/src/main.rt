// Lists the archive on standard input. A failed read or write is told on standard error, and nothing is listed of
// an input that could not be read to its end.
#![tactic(auto)]

ghost use Rattle.std.specs.Prelude.{◌≤◌, IfOk, length};

use std::io;
use std::io::{Read, Write};

// An archive that is too long to be listed is known by its first byte too many.
const ROOM: usize = archive::MOST_ARCHIVE + 1;

fn main(rt: HostRuntime) {
    let mut archive = [0u8; ROOM];
    match read_archive(&mut rt.stdin(), &mut archive) {
        Ok(n) => {
            if list(&mut rt.stdout(), &archive[..n]).is_err() {
                tell(rt, b"listing: standard output cannot be written\n");
            }
        }
        Err(_) => tell(rt, b"listing: standard input cannot be read\n"),
    }
}

// Reads an input until it ends or the buffer is full, and answers how many bytes it read. A read that a signal
// interrupts is one that failed: std's `read_to_end` would go on, and needs a heap. The program `cases` has the same
// function; a crate for it alone would be no plainer.
fn read_archive<R: Read>(input: &mut R, buffer: &mut [u8]) -> io::Result<usize>
    ensures within { IfOk result (λ done. done ≤ length buffer.new) }
{
    let mut done = 0;
    while done < buffer.len() {
        let more = input.read(&mut buffer[done..])?;
        if more == 0 {
            return Ok(done);
        }
        done += more;
    }
    Ok(done)
}

// Writes the listing of an archive.
fn list<W: Write>(output: &mut W, archive: &[u8]) -> io::Result<()> {
    let mut text = [0u8; archive::TEXT];
    let size = archive::list(archive, &mut text);
    output.write_all(&text[..size])
}

// Writes a line to standard error. Where that fails too, there is nobody to tell.
fn tell(rt: HostRuntime, line: &[u8]) {
    let _ = rt.stderr().write_all(line);
}
