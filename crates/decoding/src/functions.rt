// The words of functions: how they are made and read.
ghost use Rattle.std.specs.Prelude.{◌≡◌};
ghost use Rattle.decoding.specs.Words.{function_word, kind_word, first_in, held_in, values_in, lowest_in};

use codes::Lengths;
use semantics::Kind;

// Where the nodes end and the functions begin.
pub const FUNCTIONS: usize = syntax::MOST_BYTES;

// How many words a function has: one of its own, and one for each parameter.
pub const STRIDE: usize = 8;

// How many words there are: those of 32 functions after the nodes.
pub const WORDS: usize = FUNCTIONS + STRIDE * 32;

// A function: its first cell in bits 0 to 31, then the least and the most number of an outcome of its kind.
#[tactic(auto, unfolding(crate::specs::Words::function_word))]
pub fn function(first: u64, kind: Kind, n: Lengths) -> u64
    ensures { result ≡ function_word first kind n }
{
    first % 4294967296
        + codes::least(kind) * 4294967296
        + (codes::most(kind, n) % 65536) * 281474976710656
}

// The first cell of a function.
pub fn first_cell(function: u64) -> u64
    ensures { result ≡ first_in function }
{
    function % 4294967296
}

// What a cell of a function holds: a number that is no outcome of its kind counts as undecided.
pub fn held(function: u64, cell: u16) -> u16
    ensures { result ≡ held_in function cell }
{
    codes::decided(
        ((function / 4294967296) % 65536) as u16,
        (function / 281474976710656) as u16,
        cell,
    )
}

// A parameter: how many values it has in bits 0 to 15, and the number of the first in bits 16 to 31.
#[tactic(auto, unfolding(crate::specs::Words::kind_word))]
pub fn kind(kind: Kind, n: Lengths) -> u64
    ensures { result ≡ kind_word kind n }
{
    codes::radix(kind, n) % 65536 + codes::lowest(kind) * 65536
}

// How many values a parameter has.
pub fn values(kind: u64) -> u64
    ensures { result ≡ values_in kind }
{
    kind % 65536
}

// The number of its first value.
pub fn lowest(kind: u64) -> u64
    ensures { result ≡ lowest_in kind }
{
    (kind / 65536) % 65536
}
