// Memories, printed to a writer in the form of scripts. A write that fails ends the printing.
use crate::fields::Lent;
use crate::words::Word;
use std::io;
use std::io::Write;

// The runs of equal words that are printed one by one.
const MOST_RUNS: usize = 400;

// A memory, with brackets around the lent part.
pub fn memory<W: Write, T: Word>(writer: &mut W, content: &[T], lent: Lent) -> io::Result<()> {
    write!(writer, ", {} ", T::NAME)?;
    words(writer, content.get(..lent.from).unwrap_or(&[]))?;
    write!(writer, "[")?;
    words(writer, content.get(lent.from..lent.to).unwrap_or(&[]))?;
    write!(writer, "]")?;
    words(writer, content.get(lent.to..lent.size).unwrap_or(&[]))
}

// Words, run by run, and how many follow the last run that is printed.
fn words<W: Write, T: Word>(writer: &mut W, content: &[T]) -> io::Result<()> {
    let mut rest = content;
    let mut before = None;
    for _ in 0..MOST_RUNS {
        let Some(first) = rest.first() else {
            return Ok(());
        };
        let count = rest.iter().take_while(|word| *word == first).count();
        before = Some(next(writer, before, *first, count)?);
        rest = rest.get(count..).unwrap_or(&[]);
    }
    if rest.is_empty() {
        return Ok(());
    }
    write!(writer, "+.. {} more, sum {}", rest.len(), sum(rest))
}

// How a run was printed: counted, or word by word.
#[derive(Clone, Copy, PartialEq, Eq)]
enum Run {
    Counted,
    Written,
}

// Prints a run, after the one before it if there is one.
fn next<W: Write, T: Word>(
    writer: &mut W,
    before: Option<Run>,
    word: T,
    count: usize,
) -> io::Result<Run> {
    let printed = if T::COUNTED <= count {
        Run::Counted
    } else {
        Run::Written
    };
    let apart = match (before, printed) {
        (None, _) => false,
        (Some(Run::Written), Run::Written) => !T::JOINED,
        _ => true,
    };
    if apart {
        write!(writer, "+")?;
    }
    if printed == Run::Counted {
        word.print(writer)?;
        write!(writer, "*{count}")?;
    } else {
        for _ in 0..count {
            word.print(writer)?;
        }
    }
    Ok(printed)
}

// Tells two sequences apart: 31 times what it was plus the word, mod 65,521.
fn sum<T: Word>(content: &[T]) -> usize {
    let mut sum: usize = 0;
    for word in content {
        let value: u16 = (*word).into();
        sum = (sum * 31 + usize::from(value)) % 65521;
    }
    sum
}
