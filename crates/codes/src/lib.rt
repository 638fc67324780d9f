// Outcomes as the numbers that stand for them: hd, tl and null of them, and what a cell holds. In a working number a suffix
// says of which trace it is; in a cell its function's kind does. Every function answers for all numbers.
#![tactic(auto)]

ghost use Rattle.std.specs.Prelude.{◌≡◌};
ghost use Rattle.codes.specs.{head_of, place_of, has_samples, through_or, tail_of, null_of, decided_code, shifted_code, cell_code, length_of, radix_of, sample_code, least_code, most_code, lowest_code};

use semantics::{Contact, Kind};

// The numbers of outcomes; a suffix of length k of the ram trace is SUFFIX + k, of the guard trace GUARD_SUFFIX + k. They are
// numbers, and no Option of an enum, since the C interface lends the table as 16-bit numbers, which every visit of a cell reads.
pub const UNDECIDED: u16 = 0;

pub const FALSE: u16 = 1;

pub const TRUE: u16 = 2;

pub const HEAD: u16 = 3;

pub const TAIL: u16 = 4;

pub const SUFFIX: u16 = 5;

pub const GUARD_SUFFIX: u16 = SUFFIX + GUARD_SHIFT;

// By how much the number of a suffix of the guard trace is greater than the one in a cell.
pub const GUARD_SHIFT: u16 = 8192;

// The most bytes of a trace, and the bytes of both: the ram's first.
pub const TRACE_BYTES: usize = 512;

pub const TRACES_BYTES: usize = 1024;

// What is added to the length of each trace for its origin: the number of its empty list and the place where its samples begin.
pub const RAM_OFFSET: u16 = SUFFIX;

pub const GUARD_OFFSET: u16 = GUARD_SUFFIX + 8 * TRACE_BYTES as u16;

// The lengths of both traces.
#[derive(Clone, Copy)]
pub struct Lengths {
    pub ram: u16,
    pub guard: u16,
}

// hd of what its operand gave. `traces` has the bytes of both traces; `env` has at 4 and 5 the origin of each contact, from which
// the number of a suffix is subtracted for the place of its oldest sample.
pub fn head(traces: &[u8; TRACES_BYTES], env: &[u16; 6], operand: u16) -> u16
    ensures { result ≡ head_of traces.now env.now operand }
{
    if has_samples(operand) {
        return sample(
            traces,
            place(env[4 + usize::from((operand / GUARD_SHIFT) % 2)], operand),
        );
    }
    through_or(operand, HEAD)
}

// The place of the oldest sample of a suffix, by the origin of its contact.
fn place(origin: u16, operand: u16) -> u16
    ensures { result ≡ place_of origin operand }
{
    origin.wrapping_sub(operand)
}

// The sample at place i of both traces as a number: the guard's begin at 8 * TRACE_BYTES. It is worked out without a
// branch, which a mixed trace would mislead.
fn sample(traces: &[u8; TRACES_BYTES], i: u16) -> u16
    ensures { result ≡ sample_code traces.now i }
{
    let byte = u16::from(traces[usize::from(i / 8) % TRACES_BYTES]);
    (byte >> (i % 8)) % 2 + FALSE
}

// tl of what its operand gave.
pub fn tail(operand: u16) -> u16
    ensures { result ≡ tail_of operand }
{
    if has_samples(operand) {
        return operand - 1;
    }
    through_or(operand, TAIL)
}

// null of what its operand gave.
pub fn null(operand: u16) -> u16
    ensures { result ≡ null_of operand }
{
    if has_samples(operand) {
        return FALSE;
    }
    through_or(operand, TRUE)
}

// Whether a number is that of a list that is not empty. One comparison tells it from the empty list, undecided and errors.
pub fn has_samples(operand: u16) -> bool
    ensures { result ≡ has_samples operand }
{
    SUFFIX < operand % GUARD_SHIFT
}

// What is given for all else: undecided and errors go through, and for the empty list it is `empty`.
fn through_or(operand: u16, empty: u16) -> u16
    ensures { result ≡ through_or operand empty }
{
    if operand < SUFFIX { operand } else { empty }
}

// What a cell holds: a number that is not from `least` to `most` is no outcome of its kind, and counts as undecided.
pub fn decided(least: u16, most: u16, cell: u16) -> u16
    ensures { result ≡ decided_code least most cell }
{
    if cell < least {
        return UNDECIDED;
    }
    if most < cell {
        return UNDECIDED;
    }
    cell
}

// The working number of what a cell of a function with a guard list result holds.
pub fn shifted(cell: u16) -> u16
    ensures { result ≡ shifted_code cell }
{
    if cell < SUFFIX {
        return cell;
    }
    cell % GUARD_SHIFT + GUARD_SHIFT
}

// The number that a cell holds for a working number.
pub fn cell(number: u16) -> u16
    ensures { result ≡ cell_code number }
{
    number % GUARD_SHIFT
}

// The length of a contact's trace.
fn length(contact: Contact, n: Lengths) -> u16
    ensures { result ≡ length_of contact n }
{
    match contact {
        Contact::Ram => n.ram,
        Contact::Guard => n.guard,
    }
}

// The least number in a cell of an outcome of a kind.
pub fn least(kind: Kind) -> u64
    ensures { result ≡ least_code kind }
{
    match kind {
        Kind::Truth => u64::from(FALSE),
        Kind::List(_) => u64::from(HEAD),
    }
}

// The most.
pub fn most(kind: Kind, n: Lengths) -> u64
    ensures { result ≡ most_code kind n }
{
    match kind {
        Kind::Truth => u64::from(TAIL),
        Kind::List(contact) => u64::from(length(contact, n)) + u64::from(SUFFIX),
    }
}

// The working number of the first value of a kind; the others follow.
pub fn lowest(kind: Kind) -> u64
    ensures { result ≡ lowest_code kind }
{
    u64::from(match kind {
        Kind::Truth => FALSE,
        Kind::List(Contact::Ram) => SUFFIX,
        Kind::List(Contact::Guard) => GUARD_SUFFIX,
    })
}

// How many values a kind has.
pub fn radix(kind: Kind, n: Lengths) -> u64
    ensures { result ≡ radix_of kind n }
{
    match kind {
        Kind::Truth => 2,
        Kind::List(contact) => u64::from(length(contact, n)) + 1,
    }
}
