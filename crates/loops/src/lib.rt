// Whether a program only loops: each call is a whole body, or a branch of an if that itself is in such a place; 24 of the
// list. Each body is read once, byte by byte, and one number is kept: how many expressions are due first in which no call
// may stand.
#![tactic(auto)]

ghost use Rattle.std.specs.Prelude.{◌≡◌, ◌<◌, ◌≤◌, length};
ghost use Rattle.syntax.specs.Limits.{most_params};
ghost use Rattle.loops.specs.{plain, shape_of, loops_from, body_loops, loops_by};

use rule::Outline;
use syntax::Node;

// What a node asks for: whether it is a call; how many operands it has; and, of a node that is in a place where a call may
// stand, how many of them, the first ones, are in places where none may.
#[derive(Clone, Copy)]
pub struct Shape {
    pub call: bool,
    pub operands: u64,
    pub inner: u64,
}

// Whether a program only loops, by its outline; false where a body does not lie within the program.
pub fn only_loops(program: &[u8], outline: &Outline) -> bool
    ensures { result ≡ loops_by program.now outline.now }
{
    let count = (outline.functions as usize).min(syntax::MOST_FUNCTIONS as usize);
    (0..count).all(|i| body_loops(program, &outline.params, outline.starts[i], outline.ends[i]))
}

// Whether in the body between two places calls stand only where they may.
fn body_loops(program: &[u8], params: &[u8; 32], start: u16, end: u16) -> bool
    ensures { result ≡ body_loops program.now params.now start end }
{
    match program.get(start as usize..end as usize) {
        Some(body) => bytes_loop(body, params),
        None => false,
    }
}

// Whether in the bytes of a body calls stand only where they may. Before each byte `due` expressions are due in which none may;
// where there are none, the byte's node is in a place where one may.
fn bytes_loop(body: &[u8], params: &[u8; 32]) -> bool
    requires { length body.now < 65536 }
    ensures { result ≡ loops_from params.now 0 body.now }
{
    let mut due: u64 = 0;
    for byte in body {
        let shape = shape_of(params, syntax::node_of(*byte));
        if due == 0 {
            due = shape.inner;
        } else {
            if shape.call {
                return false;
            }
            due = due - 1 + shape.operands;
        }
    }
    true
}

// A node with so many operands, in none of which a call may stand.
const fn plain(operands: u64) -> Shape
    ensures { result ≡ plain operands }
{
    Shape {
        call: false,
        operands,
        inner: operands,
    }
}

// What a node asks for; `params` are the functions' counts of parameters.
fn shape_of(params: &[u8; 32], node: Node) -> Shape
    ensures { (result ≡ shape_of params.now node) × (result.operands ≤ most_params) × (result.inner ≤ most_params) }
{
    match node {
        Node::False | Node::True | Node::Empty | Node::EmptyGuard | Node::Param(_) => plain(0),
        Node::Head | Node::Tail | Node::Null => plain(1),
        Node::If => Shape {
            call: false,
            operands: 3,
            inner: 1,
        },
        Node::Call(g) => {
            let count = rule::at_most_four(params[(g % syntax::MOST_FUNCTIONS) as usize]);
            Shape {
                call: true,
                operands: count,
                inner: count,
            }
        }
        Node::Cons | Node::Unknown => plain(0),
    }
}
