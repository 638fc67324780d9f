// The answers of the library in words and numbers.
use chains::Followed;
use layout::Parts;
use record::{Checked, Written};
use refusal::Refusal;
use ring::{NotAdded, Ring};
use rule::Outline;
use semantics::Verdict;
use std::io;
use std::io::Write;

// Prints an answer: what is shown of its value, or the refusal.
pub fn print<W: Write, T, F: FnOnce(&mut W, T) -> io::Result<()>>(
    writer: &mut W,
    answer: Result<T, Refusal>,
    show: F,
) -> io::Result<()>
    requires { F.IsAlwaysCallable show }
{
    match answer {
        Ok(found) => show(writer, found),
        Err(refusal) => refused(writer, refusal),
    }
}

fn refused<W: Write>(writer: &mut W, refusal: Refusal) -> io::Result<()> {
    write!(writer, " refused {}", u32::from(refusal))
}

// The answer of adding a sample, with the state that it hands back.
pub fn added<W: Write>(writer: &mut W, answer: Result<Ring, NotAdded>) -> io::Result<()> {
    match answer {
        Ok(ring) => {
            write!(writer, " stored")?;
            state(writer, ring)
        }
        Err(kept) => {
            refused(writer, kept.refusal)?;
            state(writer, kept.ring)
        }
    }
}

fn state<W: Write>(writer: &mut W, ring: Ring) -> io::Result<()> {
    write!(writer, " next {} count {}", ring.next, ring.count)
}

// The samples of a trace that was taken.
pub fn samples<W: Write>(writer: &mut W, count: usize) -> io::Result<()> {
    write!(writer, " samples {count}")
}

// A program that nothing refuses.
pub fn accepted<W: Write>(writer: &mut W, _outline: Outline) -> io::Result<()> {
    write!(writer, " accepted")
}

// The number of a verdict, and its passes.
pub fn verdict<W: Write>(writer: &mut W, verdict: Verdict) -> io::Result<()> {
    let number = semantics::verdict_number(verdict.decision);
    write!(writer, " verdict {number} passes {}", verdict.passes)
}

// The number of a verdict, and the calls made.
pub fn followed<W: Write>(writer: &mut W, followed: Followed) -> io::Result<()> {
    let number = semantics::verdict_number(followed.decision);
    write!(writer, " verdict {number} calls {}", followed.calls)
}

// The outcomes that a single pass stored.
pub fn passed<W: Write>(writer: &mut W, outcomes: usize) -> io::Result<()> {
    write!(writer, " stored {outcomes}")
}

// The length of a record that was written, and the verdict in it.
pub fn written<W: Write>(writer: &mut W, written: Written) -> io::Result<()> {
    write!(writer, " length {}", written.length)?;
    verdict(writer, written.verdict)
}

// The parts of a record: of most their start and their length.
pub fn parts<W: Write>(writer: &mut W, parts: Parts) -> io::Result<()> {
    let program = parts.program;
    let trace = parts.trace;
    write!(writer, " format {}", parts.format)?;
    write!(writer, " program {} {}", program.start, program.length)?;
    write!(writer, " trace {} {}", trace.start, trace.length)?;
    write!(writer, " n {}", parts.n)?;
    if let Some(guard) = parts.guard {
        write!(writer, " guard {} {}", guard.span.start, guard.span.length)?;
        write!(writer, " m {}", guard.samples)?;
    }
    match parts.label {
        Some(label) => write!(writer, " label {} {}", label.start, label.length)?,
        None => write!(writer, " no label")?,
    }
    write!(writer, " verdict {} passes {}", parts.verdict, parts.passes)
}

// Whether a record agrees, and the verdict worked out.
pub fn checked<W: Write>(writer: &mut W, checked: Checked) -> io::Result<()> {
    match checked {
        Checked::Agrees(found) => {
            write!(writer, " agrees")?;
            verdict(writer, found)
        }
        Checked::Differs(found) => {
            write!(writer, " differs")?;
            verdict(writer, found)
        }
    }
}

// What a step of a walk finds.
pub fn step<W: Write>(writer: &mut W, found: Option<Parts>) -> io::Result<()> {
    match found {
        Some(found) => parts(writer, found),
        None => write!(writer, " end"),
    }
}
