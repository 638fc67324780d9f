// The words that memories are made of: bytes in hexadecimal, cells in decimal.
ghost use Rattle.std.specs.Prelude.{◌≡◌, ◌<◌, ◌+◌, ◌-◌, cond, ltb, IfSome, length, take};
ghost use Rattle.script.specs.{IsDecimal};

use std::io;
use std::io::Write;

// A word of a memory, as a script has it.
pub trait Word: Copy + PartialEq + Into<u16> {
    // What a memory of such words is called.
    const NAME: &'static str;

    // So many equal words are counted, not printed one by one.
    const COUNTED: usize;

    // Whether the words stand next to each other with nothing between.
    const JOINED: bool;

    // The word that a text begins with, and the text after it.
    fn read(text: &[u8]) -> Option<(Self, &[u8])>
        ensures { IfSome result (λ r. length r.1.now < length text.now) };

    fn print<W: Write>(self, writer: &mut W) -> io::Result<()>;
}

impl Word for u8 {
    const NAME: &'static str = "bytes";

    const COUNTED: usize = 4;

    const JOINED: bool = true;

    fn read(text: &[u8]) -> Option<(u8, &[u8])> {
        match text {
            [high, low, rest @ ..] => Some((digit(*high)? * 16 + digit(*low)?, rest)),
            _ => None,
        }
    }

    // Both digits in one write: a format would write the zero before a single digit by itself.
    fn print<W: Write>(self, writer: &mut W) -> io::Result<()> {
        writer.write_all(&[figure(self / 16), figure(self % 16)])
    }
}

impl Word for u16 {
    const NAME: &'static str = "cells";

    const COUNTED: usize = 2;

    const JOINED: bool = false;

    fn read(text: &[u8]) -> Option<(u16, &[u8])> {
        let (value, rest) = decimal(text)?;
        Some((u16::try_from(value).ok()?, rest))
    }

    fn print<W: Write>(self, writer: &mut W) -> io::Result<()> {
        write!(writer, "{self}")
    }
}

// The value of a hexadecimal digit. The library's `to_digit` reads small letters too, which a script has not.
fn digit(byte: u8) -> Option<u8>
    ensures { IfSome result (λ value. value < 16) }
{
    match byte {
        b'0'..=b'9' => Some(byte - b'0'),
        b'A'..=b'F' => Some(byte - b'A' + 10),
        _ => None,
    }
}

// The hexadecimal digit of a value.
fn figure(value: u8) -> u8
    requires { value < 16 }
    ensures { result ≡ cond (ltb value 10) (value + 48) (value + 55) }
{
    if value < 10 {
        b'0' + value
    } else {
        b'A' + (value - 10)
    }
}

// The number in decimal that a text begins with, and the text after it.
pub fn decimal(text: &[u8]) -> Option<(usize, &[u8])>
    ensures rest { IfSome result (λ r. length r.1.now < length text.now) }
    ensures value { IfSome result (λ r. IsDecimal (take (length text.now - length r.1.now) text.now) r.0) }
{
    let end = text
        .iter()
        .position(|byte| !byte.is_ascii_digit())
        .unwrap_or(text.len());
    if end == 0 {
        return None;
    }
    let (figures, rest) = text.split_at_checked(end)?;
    let value = str::from_utf8(figures).ok()?.parse::<usize>().ok()?;
    Some((value, rest))
}
