// Decoding: a program's bytes into nodes, each byte decided once, and its functions into words.
ghost use Rattle.std.specs.Prelude.{◌≡◌, ◌*◌, ◌<◌, ◌≤◌, min, length, replicate};
ghost use Rattle.syntax.specs.Limits.{most_functions, most_params, most_body, most_bytes};
ghost use Rattle.decoding.specs.Words.{stride};
ghost use Rattle.decoding.specs.Decoding.{end_at, ends_after, arguments_of, operands_of, constant_by, unary_by, conditional_by, placed, leaves_in, call_sort_of, called_by};
ghost use Rattle.decoding.specs.Decoding.{decoded_by, entry_of, entries_upto, words_down, words_filled};

use crate::functions::{FUNCTIONS, STRIDE, WORDS};
use crate::{functions, nodes};
use codes::Lengths;
use semantics::{Contact, Kind};
use syntax::Node;

// Ends of expressions stand by the remainders of their places: an expression lies within a body, so the ends of the
// places that the longest body takes are enough.
const ENDS: usize = syntax::MOST_BODY;

// Writes the words of a program and of so many functions, at most 32. `functions` has their first cells from 0
// on and their signatures from 32 on; `n` are the lengths of the traces. A program's bytes beyond the longest are passed
// over.
#[tactic(auto, unfolding(crate::specs::Decoding::words_filled))]
pub fn fill(
    program: &[u8],
    params: &[u8; 32],
    functions: &[u64; 96],
    count: u8,
    n: Lengths,
    words: &mut [u64; WORDS],
)
    ensures { words.new ≡ words_filled program.now params.now functions.now count n words.old }
{
    put_functions(functions, count, n, words);
    put_nodes(program, params, functions, words);
}

// Writes the words of so many functions, at most 32.
#[tactic(auto, unfolding(crate::specs::Decoding::entries_upto))]
fn put_functions(functions: &[u64; 96], count: u8, n: Lengths, words: &mut [u64; WORDS])
    ensures { words.new ≡ entries_upto functions.now n (stride * min count most_functions) words.old }
{
    for k in 0..STRIDE * usize::from(count.min(syntax::MOST_FUNCTIONS)) {
        words[FUNCTIONS + k] = entry(functions, n, k);
    }
}

// Word k of the functions.
#[tactic(auto, unfolding(crate::specs::Decoding::entry_of))]
fn entry(functions: &[u64; 96], n: Lengths, k: usize) -> u64
    requires { k < 256 }
    ensures { result ≡ entry_of functions.now n k }
{
    let g = k / STRIDE;
    let i = k % STRIDE;
    let signature = functions[32 + g];
    if i == 0 {
        return functions::function(functions[g], syntax::kind_at(signature, 4), n);
    }
    functions::kind(syntax::kind_at(signature, (i - 1) as u64), n)
}

// Decodes a program from its last byte to its first, each node by those after it. Bytes that begin no
// expression are decoded too; nothing leads to them.
fn put_nodes(program: &[u8], params: &[u8; 32], functions: &[u64; 96], words: &mut [u64; WORDS])
    ensures { words.new ≡ words_down program.now params.now functions.now (replicate most_body 0) (min most_bytes (length program.now)) 0 words.old }
{
    let mut ends = [0u16; ENDS];
    let len = program.len().min(syntax::MOST_BYTES);
    for at in (0..len).rev() {
        let node = syntax::node_of(program[at]);
        let next = words[at + 1];
        words[at] = decoded(params, functions, &ends, words, (at + 1) as u16, next, node);
        ends[at % ENDS] = end_after(&ends, operands(params, node), (at + 1) as u16);
    }
}

// The word of a node, by the place after it, the ends of the expressions from there on and the word there; of a call also by the
// callee's count in `params`, its signature in `functions` and the words of its arguments.
fn decoded(
    params: &[u8; 32],
    functions: &[u64; 96],
    ends: &[u16; ENDS],
    words: &[u64; WORDS],
    first: u16,
    next: u64,
    node: Node,
) -> u64
    ensures { result ≡ decoded_by params.now functions.now ends.now words.now first next node }
{
    match node {
        Node::False => constant(codes::FALSE),
        Node::True => constant(codes::TRUE),
        Node::Empty => constant(codes::SUFFIX),
        Node::EmptyGuard => constant(codes::GUARD_SUFFIX),
        Node::Param(i) => nodes::node(nodes::PARAM, u64::from(i), 0, 0, 0, 0),
        Node::Head => unary(nodes::HEAD, nodes::HEAD_PARAM, first, next),
        Node::Tail => unary(nodes::TAIL, nodes::TAIL_PARAM, first, next),
        Node::Null => unary(nodes::NULL, nodes::NULL_PARAM, first, next),
        Node::If => with_operands(ends, conditional(next), nodes::param(next) as u64, first),
        Node::Call(g) => call(params, functions, ends, words, g, first),
        Node::Cons | Node::Unknown => constant(codes::UNDECIDED),
    }
}

// A constant, by the number of its outcome.
pub fn constant(number: u16) -> u64
    ensures { result ≡ constant_by number }
{
    nodes::node(nodes::CONSTANT, 0, number % 4096, number / 4096, 0, 0)
}

// hd, tl or null, by the word of its operand.
fn unary(sort: u64, of_param: u64, first: u16, operand: u64) -> u64
    ensures { result ≡ unary_by sort of_param first operand }
{
    if nodes::sort(operand) == nodes::PARAM {
        return nodes::node(of_param, nodes::param(operand) as u64, first, 0, 0, 0);
    }
    nodes::node(sort, 0, first, 0, 0, 0)
}

// The sort of an if, by the word of its condition.
fn conditional(condition: u64) -> u64
    ensures { result ≡ conditional_by condition }
{
    match nodes::sort(condition) {
        nodes::PARAM => nodes::IF_PARAM,
        nodes::NULL_PARAM => nodes::IF_NULL,
        nodes::HEAD_PARAM => nodes::IF_HEAD,
        _ => nodes::IF,
    }
}

// A call of function g.
fn call(
    params: &[u8; 32],
    functions: &[u64; 96],
    ends: &[u16; ENDS],
    words: &[u64; WORDS],
    g: u8,
    first: u16,
) -> u64
    ensures { result ≡ called_by functions.now ends.now words.now (arguments_of params.now g) g first }
{
    let count = arguments(params, g);
    let result = syntax::kind_at(functions[32 + usize::from(g % 32)], 4);
    let small = u64::from(g % 32) + 32 * count;
    let places = nodes::places(with_operands(ends, nodes::CALL, small, first));
    let sort = call_sort(result, count, leaves(words, count, places));
    with_operands(ends, sort, small, first)
}

// Whether so many operands are leaves, by their places, the first in the lowest 12 bits.
#[tactic(auto, unfolding(crate::specs::Decoding::leaves_in))]
fn leaves(words: &[u64; WORDS], count: u64, places: u64) -> bool
    ensures { result ≡ leaves_in words.now count places }
{
    let mut rest = places;
    for _ in 0..count {
        if !nodes::is_leaf(nodes::at(words, rest)) {
            return false;
        }
        rest /= 4096;
    }
    true
}

// The sort of a call, by the callee's result kind, the number of arguments and whether they are leaves.
fn call_sort(res: Kind, count: u64, leaves: bool) -> u64
    ensures { result ≡ call_sort_of res count leaves }
{
    if res == Kind::List(Contact::Guard) {
        return nodes::CALL_GUARD;
    }
    if count == 1 {
        return nodes::CALL_ONE;
    }
    if leaves {
        nodes::CALL_LEAVES
    } else {
        nodes::CALL
    }
}

// A node whose operands stand one after the other from a place on.
fn with_operands(ends: &[u16; ENDS], sort: u64, small: u64, first: u16) -> u64
    ensures { result ≡ placed ends.now sort small first }
{
    let second = end_at(ends, first);
    let third = end_at(ends, second);
    let fourth = end_at(ends, third);
    nodes::node(sort, small, first, second, third, fourth)
}

// Where the expression at a place ends.
#[tactic(auto, unfolding(crate::specs::Decoding::end_at))]
fn end_at(ends: &[u16; ENDS], at: u16) -> u16
    ensures { result ≡ end_at ends.now at }
{
    ends[usize::from(at) % ENDS]
}

// The end of so many expressions, one after the other from a place on.
#[tactic(auto, unfolding(crate::specs::Decoding::ends_after))]
fn end_after(ends: &[u16; ENDS], count: u64, first: u16) -> u16
    ensures { result ≡ ends_after ends.now count first }
{
    let mut place = first;
    for _ in 0..count {
        place = end_at(ends, place);
    }
    place
}

// How many operands a node has.
fn operands(params: &[u8; 32], node: Node) -> u64
    ensures { result ≡ operands_of params.now node }
{
    match node {
        Node::False | Node::True | Node::Empty | Node::EmptyGuard | Node::Param(_) => 0,
        Node::Head | Node::Tail | Node::Null => 1,
        Node::If => 3,
        Node::Call(g) => arguments(params, g),
        Node::Cons | Node::Unknown => 0,
    }
}

// How many arguments a call of function g has.
fn arguments(params: &[u8; 32], g: u8) -> u64
    ensures { (result ≡ arguments_of params.now g) × (result ≤ most_params) }
{
    if 32 <= g {
        return 0;
    }
    rule::at_most_four(params[usize::from(g)])
}
