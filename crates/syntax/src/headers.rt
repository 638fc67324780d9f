// The function count byte and headers, 6 to 9 of the list.
ghost use Rattle.std.specs.Prelude.{◌≡◌, ◌+◌, ◌-◌, ◌<◌, ◌≤◌, length, drop};
ghost use Rattle.syntax.specs.Bytes.{sort_in, count_in, header_bytes, guard_byte_in, kinds_fault, guard_fault, length_fault, header_of};

use crate::Header;
use refusal::Refusal;
use semantics::Sort;

// The header that stands at a place of a program of a sort.
pub fn header_at(program: &[u8], sort: Sort, at: usize) -> Result<Header, Refusal>
    ensures { result ≡ header_of sort (drop at program.now) }
{
    let size = header_bytes(sort);
    let remains = program.len().saturating_sub(at);
    if remains < size {
        return Err(Refusal::HeaderCut);
    }
    let params = program[at];
    let kinds = program[at + 1];
    let guard = guard_byte(program, sort, at);
    if kinds_fault(params, kinds) {
        return Err(Refusal::ParameterKinds);
    }
    if guard_fault(kinds, guard) {
        return Err(Refusal::ParameterKinds);
    }
    let length = encoding::from16(program[at + size - 2], program[at + size - 1]);
    if length_fault(length, remains - size) {
        return Err(Refusal::BodyLength);
    }
    Ok(Header {
        params,
        kinds,
        guard,
        length,
    })
}

// The sort of a program, by its function count byte.
pub fn sort_of(byte: u8) -> Sort
    ensures { result ≡ sort_in byte }
{
    if byte < crate::TWO_MARK {
        Sort::One
    } else {
        Sort::Two
    }
}

// The number of functions that the byte says.
pub fn count_of(byte: u8) -> u8
    ensures { result ≡ count_in byte }
{
    if byte < crate::TWO_MARK {
        byte
    } else {
        byte - crate::TWO_MARK
    }
}

// How many bytes a header has.
pub fn header_bytes(sort: Sort) -> usize
    ensures { (result ≡ header_bytes sort) × (4 ≤ result) × (result ≤ 5) }
{
    match sort {
        Sort::One => 4,
        Sort::Two => 5,
    }
}

// The guard byte of the header at a place; 0 where there is none.
fn guard_byte(program: &[u8], sort: Sort, at: usize) -> u8
    requires { at + 3 < length program.now }
    ensures { result ≡ guard_byte_in sort (drop at program.now) }
{
    match sort {
        Sort::One => 0,
        Sort::Two => program[at + 2],
    }
}

// Whether 8 applies to the number of parameters and the kinds byte.
fn kinds_fault(params: u8, kinds: u8) -> bool
    ensures { result ≡ kinds_fault params kinds }
{
    crate::MOST_PARAMS < params || (1u8 << params) <= kinds % 16 || 32 <= kinds
}

// Whether it applies to the guard byte.
fn guard_fault(kinds: u8, guard: u8) -> bool
    ensures { result ≡ guard_fault kinds guard }
{
    if 32 <= guard {
        return true;
    }
    for i in 0..5u64 {
        if trace::bit(guard as u64, i) && !trace::bit(kinds as u64, i) {
            return true;
        }
    }
    false
}

// Whether 9 applies.
fn length_fault(size: u16, remains: usize) -> bool
    ensures { result ≡ length_fault size remains }
{
    let wide = size as usize;
    wide == 0 || crate::MOST_BODY < wide || remains < wide
}
