// The fields of a line: numbers and memories.
ghost use Rattle.std.specs.Prelude.{◌≡◌, ◌<◌, ◌≤◌, IfSome, length, slice_range};
ghost use Rattle.script.specs.{IsDecimal};

use crate::words;
use crate::words::Word;

// A memory as a field gives it: so many words, of which those between two places are lent.
#[derive(Clone, Copy)]
pub struct Lent {
    pub from: usize,
    pub to: usize,
    pub size: usize,
}

impl Lent {
    // The words that are lent.
    pub fn of<T>(self, words: &mut [T]) -> &mut [T]
        ensures { self.from ≤ self.to → self.to ≤ length words.old → result.now ≡ slice_range words.old self.from self.to }
    {
        words.get_mut(self.from..self.to).unwrap_or(&mut [])
    }
}

// The number that a field is.
pub fn number(field: &[u8]) -> Option<usize>
    ensures { IfSome result (λ value. IsDecimal field.now value) }
{
    match words::decimal(field)? {
        (value, []) => Some(value),
        _ => None,
    }
}

// The words that a field describes, put at the beginning of some room.
pub fn lend<T: Word>(field: &[u8], room: &mut [T]) -> Option<Lent>
    ensures within { IfSome result (λ lent. (lent.from ≤ lent.to) × (lent.to ≤ lent.size) × (lent.size ≤ length room.new)) }
    ensures described { IfSome result (λ lent. 0 < length field.now) }
{
    if field.is_empty() {
        return None;
    }
    let mut size: usize = 0;
    let mut group: usize = 0;
    let mut from: usize = 0;
    let mut end = None;
    let mut text = field;
    while let Some((first, rest)) = text.split_first() {
        match *first {
            b'*' => {
                let (times, rest) = words::decimal(rest)?;
                size = repeat(room, group, size, times)?;
                group = size;
                text = rest;
            }
            b'[' => {
                from = size;
                group = size;
                text = rest;
            }
            b']' => {
                end = Some(size);
                group = size;
                text = rest;
            }
            b'+' | b'-' => {
                group = size;
                text = rest;
            }
            _ => {
                let (word, rest) = T::read(text)?;
                *room.get_mut(size)? = word;
                size += 1;
                text = rest;
            }
        }
    }
    let to = end.unwrap_or(size);
    (from <= to).then_some(Lent { from, to, size })
}

// Repeats the words between two places so many times in all, and answers the place after them; nothing where there is no
// word or no room.
fn repeat<T: Word>(room: &mut [T], start: usize, end: usize, times: usize) -> Option<usize>
    ensures { IfSome result (λ whole. (end ≤ whole) × (whole ≤ length room.new)) }
{
    let length = end.checked_sub(start)?;
    if length == 0 || times == 0 {
        return None;
    }
    let whole = length.checked_mul(times)?.checked_add(start)?;
    let words = room.get_mut(start..whole)?;
    for i in length..words.len() {
        words[i] = words[i - length];
    }
    Some(whole)
}
