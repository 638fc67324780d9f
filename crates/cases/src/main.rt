// Runs the cases of a script on standard input through the library, and prints what came out. The second
// implementation of tests/compare prints what it must be.
//
// A script is lines of text. An empty line, and one that begins with '#', is passed over; each other is a case:
//
//     NAME: OPERATION FIELD FIELD ..
//
// with one space before the operation and before each field. The name has no colon. These are the operations:
//
//     add SLOTS NEXT COUNT SAMPLE       take SLOTS NEXT COUNT OUTPUT       fill SLOTS SAMPLES
//     check PROGRAM                     evaluate PROGRAM TRACE N TABLE     pass PROGRAM TRACE N TABLE
//     follow PROGRAM TRACE N            write PROGRAM TRACE N TABLE OUTPUT
//     evaluate-two PROGRAM RAM N GUARD M TABLE         pass-two PROGRAM RAM N GUARD M TABLE
//     follow-two PROGRAM RAM N GUARD M                 write-two PROGRAM RAM N GUARD M TABLE OUTPUT
//     read RECORD                       check-record RECORD TABLE          examine RECORD TABLE
//     last ARCHIVE LEFT                 walk ARCHIVE                       list ARCHIVE
//
// NEXT, COUNT, N, M and LEFT are numbers in decimal. TABLE is cells: numbers in decimal with '+' between them, each
// with '*' and a number to repeat it, as 0+9*4. The others are bytes: pairs of hexadecimal digits, with capitals;
// '*' and a number repeats the pairs before it, and '+' begins others, so 0102*3+FF is 01 02 01 02 01 02 FF. In
// bytes and cells '[' and ']' stand around the part that is lent, as in 9*2[0*3]9; without them all is lent. '-'
// stands for none. Of a SAMPLE the first byte counts; a missing one is 0.
//
// A case prints its name, the answer, and each memory that the operation may write as it is afterwards, in the
// same form: four equal bytes or more, and equal cells, are repeated by '*'; after 400 runs of equal ones it says
// how many words follow, and a sum of them. 'fill' adds the samples to a new ring one by one; 'check-record' reads
// and checks; 'walk' goes from the last record to the first.
//
// A line that cannot be read ends the run with 'cannot read line' and its number.
#![tactic(auto)]

mod answers;
mod calls;
mod operations;

ghost use Rattle.std.specs.Prelude.{◌≤◌, IfOk, length};

use std::io;
use std::io::{Read, Write};

// The longest script.
const MOST_SCRIPT: usize = 65536;

fn main(rt: HostRuntime) -> io::Result<()> {
    let mut script = [0u8; MOST_SCRIPT + 1];
    let size = read_script(&mut rt.stdin(), &mut script)?;
    let mut output = rt.stdout();
    if MOST_SCRIPT < size {
        return writeln!(output, "cannot read more than 65536 bytes");
    }
    run(&mut output, &script[..size])
}

// Reads an input until it ends or the buffer is full, and answers how many bytes it read. std's `read_to_end` would
// need a heap, and go on after a signal, which is a failed read here as in the program `listing`.
fn read_script<R: Read>(input: &mut R, buffer: &mut [u8]) -> io::Result<usize>
    ensures { IfOk result (λ size. size ≤ length buffer.new) }
{
    let mut size = 0;
    while size < buffer.len() {
        let more = input.read(&mut buffer[size..])?;
        if more == 0 {
            return Ok(size);
        }
        size += more;
    }
    Ok(size)
}

// Runs the cases line by line, as far as they can be read.
fn run<W: Write>(writer: &mut W, script: &[u8]) -> io::Result<()> {
    for (line, number) in script.split_inclusive(|byte| *byte == b'\n').zip(1usize..) {
        let read = match line.strip_suffix(b"\n") {
            Some(line) => operations::line(writer, line)?,
            None => false,
        };
        if !read {
            return writeln!(writer, "cannot read line {number}");
        }
    }
    Ok(())
}
