// Decoded nodes: how a node's word is made and read.
ghost use Rattle.std.specs.Prelude.{◌≡◌, ◌%◌, get_or};
ghost use Rattle.decoding.specs.Words.{packed, sort_of, is_leaf, param_of, callee_of, count_of, places_of, constant_of, first_place, second_place, third_place};

use crate::functions::WORDS;

// The sorts of decoded nodes. hd, tl and null of a parameter have sorts of their own; so has an if whose
// condition is a parameter, or null or hd of one, a call of a function with a guard list result, any other call with
// one argument, and of the rest a call whose arguments are all leaves. They are numbers, and no enum: a sort is read out of four bits
// of a node's word at every visit.
pub const CONSTANT: u64 = 0;

pub const PARAM: u64 = 1;

pub const HEAD: u64 = 2;

pub const TAIL: u64 = 3;

pub const NULL: u64 = 4;

pub const HEAD_PARAM: u64 = 5;

pub const TAIL_PARAM: u64 = 6;

pub const NULL_PARAM: u64 = 7;

pub const IF: u64 = 8;

pub const IF_PARAM: u64 = 9;

pub const IF_NULL: u64 = 10;

pub const IF_HEAD: u64 = 11;

pub const CALL: u64 = 12;

pub const CALL_ONE: u64 = 13;

pub const CALL_GUARD: u64 = 14;

pub const CALL_LEAVES: u64 = 15;

// A node: its sort in bits 0 to 3, a small number in bits 8 to 15, and four places of 12 bits. The small
// number is a parameter, or of a call the callee and 32 times the number of arguments. The places are those
// of the operands, in their order; of a constant the first two have its number, the lowest 12 bits in the first.
#[tactic(auto, unfolding(crate::specs::Words::packed))]
pub fn node(sort: u64, small: u64, first: u16, second: u16, third: u16, fourth: u16) -> u64
    ensures { result ≡ packed sort small first second third fourth }
{
    sort % 16
        + (small % 256) * 256
        + u64::from(first % 4096) * 65536
        + u64::from(second % 4096) * 268435456
        + u64::from(third % 4096) * 1099511627776
        + u64::from(fourth % 4096) * 4503599627370496
}

// The sort of a node.
pub fn sort(node: u64) -> u64
    ensures { result ≡ sort_of node }
{
    node % 16
}

// Whether a node is a leaf: a constant, a parameter, its hd or its tl.
#[tactic(auto, unfolding(crate::specs::Words::is_leaf))]
pub fn is_leaf(node: u64) -> bool
    ensures { result ≡ is_leaf node }
{
    matches!(sort(node), CONSTANT | PARAM | HEAD_PARAM | TAIL_PARAM)
}

// The parameter of a node.
pub fn param(node: u64) -> usize
    ensures { result ≡ param_of node }
{
    ((node / 256) % 4) as usize
}

// The function that a call names.
pub fn callee(node: u64) -> usize
    ensures { result ≡ callee_of node }
{
    ((node / 256) % 32) as usize
}

// How many arguments a call has.
pub fn count(node: u64) -> u64
    ensures { result ≡ count_of node }
{
    (node / 8192) % 8
}

// The number of a constant.
pub fn constant(node: u64) -> u16
    ensures { result ≡ constant_of node }
{
    ((node / 65536) % 65536) as u16
}

// The places of a node's operands, the first in the lowest 12 bits.
pub fn places(node: u64) -> u64
    ensures { result ≡ places_of node }
{
    node / 65536
}

// The node at the first of some places.
pub fn at(words: &[u64; WORDS], places: u64) -> u64
    ensures { result ≡ get_or words.now (places % 4096) 0 }
{
    words[(places % 4096) as usize]
}

// The nodes at the first three places of a node.
pub fn first(words: &[u64; WORDS], node: u64) -> u64
    ensures { result ≡ get_or words.now (first_place node) 0 }
{
    words[((node / 65536) % 4096) as usize]
}

pub fn second(words: &[u64; WORDS], node: u64) -> u64
    ensures { result ≡ get_or words.now (second_place node) 0 }
{
    words[((node / 268435456) % 4096) as usize]
}

pub fn third(words: &[u64; WORDS], node: u64) -> u64
    ensures { result ≡ get_or words.now (third_place node) 0 }
{
    words[((node / 1099511627776) % 4096) as usize]
}
