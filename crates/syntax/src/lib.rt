// The smallest forms of program bytes: what the function count byte and a header say, which node an expression byte stands for,
// and the kinds that they say. All are answered for all bytes.
#![tactic(auto)]

mod headers;
mod kinds;
mod nodes;

pub use headers::{count_of, header_at, header_bytes, sort_of};
pub use kinds::{kind_at, kind_by};
pub use nodes::node_of;

// The mark of two contacts in a function count byte.
pub const TWO_MARK: u8 = 0x80;

// The limits of document 01.
pub const MOST_FUNCTIONS: u8 = 32;

pub const MOST_PARAMS: u8 = 4;

pub const MOST_BODY: usize = 1024;

pub const MOST_DEPTH: u8 = 64;

pub const MOST_BYTES: usize = 4096;

// The sorts of nodes that an expression byte can stand for.
#[derive(Clone, Copy, PartialEq, Eq)]
pub enum Node {
    False,
    True,
    Empty,
    EmptyGuard,
    Param(u8),
    Head,
    Tail,
    Null,
    If,
    Cons,
    Call(u8),
    Unknown,
}

// A function's header: the number of parameters, the kinds byte, the guard byte (0 where there is none) and the body
// length.
#[derive(Clone, Copy, PartialEq, Eq)]
pub struct Header {
    pub params: u8,
    pub kinds: u8,
    pub guard: u8,
    pub length: u16,
}
