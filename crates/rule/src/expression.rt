// Expressions, 12 to 16, 25 and 26 of the list: the remaining depth falls at each node.
ghost use Rattle.std.specs.Prelude.{◌≡◌, ◌≤◌};
ghost use Rattle.rule.specs.Reading.{apart, kind_at};
ghost use Rattle.rule.specs.Walk.{Sized, frame_of, at_most_four, leaf_walked, param_walked, guard_empty_walked, check_at, call_walked_at};

use crate::Outline;
use refusal::Refusal;
use semantics::{Contact, Demand, Kind, Sort};
use syntax::{Node, node_of};

// Where a node of the wrong kind stands: in a body's result, in an operand of hd, tl, null or a condition, or in an argument.
#[derive(Clone, Copy, PartialEq, Eq)]
pub enum Fault {
    InResult,
    InOperand,
    InArgument,
}

// A place of an expression: what it demands, and which fault a node of another kind is there.
#[derive(Clone, Copy, PartialEq, Eq)]
pub struct Place {
    pub demand: Demand,
    pub fault: Fault,
}

// What a check of a body works on: its bytes, the program's functions and which of them it is of.
#[derive(Clone, Copy)]
pub struct Frame<'a> {
    pub body: &'a [u8],
    pub sort: Sort,
    pub outline: &'a Outline,
    pub own: usize,
}

// A condition, and the operand of hd or null.
const CONDITION: Place = Place {
    demand: Demand::Only(Kind::Truth),
    fault: Fault::InOperand,
};

const EITHER_LIST: Place = Place {
    demand: Demand::AnyList,
    fault: Fault::InOperand,
};

// The operand of tl, where a list of the ram is demanded, and where one of the guard is.
const RAM_LIST: Place = Place {
    demand: Demand::Only(Kind::List(Contact::Ram)),
    fault: Fault::InOperand,
};

const GUARD_LIST: Place = Place {
    demand: Demand::Only(Kind::List(Contact::Guard)),
    fault: Fault::InOperand,
};

// The position after the expression at a position in a body, with so much depth left, if it meets what its place demands; or
// its refusal. An expression ends where its last operand does: of hd, tl, null and an if, a turn of the loop goes on to that one, which
// spares a call.
#[cycle(call_check_operand)]
pub fn check(
    frame: &Frame,
    mut place: &Place,
    mut depth: usize,
    mut at: usize,
) -> Result<usize, Refusal>
    requires { Sized (frame_of frame.now) }
    ensures { result ≡ check_at (frame_of frame.now) depth place.now at }
{
    loop {
        if frame.body.len() <= at {
            return Err(Refusal::BodyEnds);
        }
        if depth == 0 {
            return Err(Refusal::TooDeep);
        }
        let next = at + 1;
        depth -= 1;
        match node_of(frame.body[at]) {
            Node::False | Node::True => return leaf(place, Kind::Truth, next),
            Node::Empty => return leaf(place, Kind::List(Contact::Ram), next),
            Node::EmptyGuard => return guard_empty(frame.sort, place, next),
            Node::Param(i) => return param(frame, place, i, next),
            // a Bool, of a list of either contact
            Node::Head | Node::Null => {
                if !place.demand.allows(Kind::Truth) {
                    return Err(apart(place.fault));
                }
                place = &EITHER_LIST;
                at = next;
            }
            // a list of the contact that is demanded
            Node::Tail => {
                place = match place.demand {
                    Demand::Only(Kind::Truth) => return Err(apart(place.fault)),
                    Demand::Only(Kind::List(Contact::Ram)) => &RAM_LIST,
                    Demand::Only(Kind::List(Contact::Guard)) => &GUARD_LIST,
                    Demand::AnyList => &EITHER_LIST,
                };
                at = next;
            }
            Node::If => {
                let second = operand(frame, &CONDITION, depth, next)?;
                at = operand(frame, place, depth, second)?;
            }
            Node::Cons => return Err(Refusal::ListConstructor),
            Node::Call(g) => return call(frame, place, depth, next, g),
            Node::Unknown => return Err(Refusal::UnknownByte),
        }
    }
}

// The same for the condition and the first branch of an if. A Bool, the empty ram list and a parameter are judged without a call.
#[inline(always)]
#[cycle(call_check_operand)]
fn operand(frame: &Frame, place: &Place, depth: usize, at: usize) -> Result<usize, Refusal>
    requires { Sized (frame_of frame.now) }
    ensures { result ≡ check_at (frame_of frame.now) depth place.now at }
{
    if at < frame.body.len() && depth != 0 {
        match node_of(frame.body[at]) {
            Node::False | Node::True => return leaf(place, Kind::Truth, at + 1),
            Node::Empty => return leaf(place, Kind::List(Contact::Ram), at + 1),
            Node::Param(i) => return param(frame, place, i, at + 1),
            _ => {}
        }
    }
    check(frame, place, depth, at)
}

// The refusal of a node of the wrong kind, by where it stands.
fn apart(fault: Fault) -> Refusal
    ensures { result ≡ apart fault }
{
    match fault {
        Fault::InResult => Refusal::WrongKind,
        Fault::InOperand => Refusal::OperandKind,
        Fault::InArgument => Refusal::ArgumentKind,
    }
}

// A node with no operands.
fn leaf(place: &Place, kind: Kind, next: usize) -> Result<usize, Refusal>
    ensures { result ≡ leaf_walked place.now kind next }
{
    if place.demand.allows(kind) {
        Ok(next)
    } else {
        Err(apart(place.fault))
    }
}

// The empty guard list, of a program of a sort.
fn guard_empty(sort: Sort, place: &Place, next: usize) -> Result<usize, Refusal>
    ensures { result ≡ guard_empty_walked sort place.now next }
{
    match sort {
        Sort::One => Err(Refusal::UnknownByte),
        Sort::Two => leaf(place, Kind::List(Contact::Guard), next),
    }
}

// Parameter i of the function whose body is checked.
fn param(frame: &Frame, place: &Place, i: u8, next: usize) -> Result<usize, Refusal>
    requires { Sized (frame_of frame.now) }
    ensures { result ≡ param_walked (frame_of frame.now) place.now i next }
{
    let outline = frame.outline;
    if i < outline.params[frame.own] {
        leaf(
            place,
            kind(
                outline.kinds[frame.own],
                outline.guards[frame.own],
                i as u64,
            ),
            next,
        )
    } else {
        Err(Refusal::UnknownByte)
    }
}

// A call of a function, with its arguments.
#[cycle(call_check_operand)]
fn call(frame: &Frame, place: &Place, depth: usize, at: usize, callee: u8) -> Result<usize, Refusal>
    requires { Sized (frame_of frame.now) }
    ensures { result ≡ call_walked_at (frame_of frame.now) depth place.now at callee }
{
    let outline = frame.outline;
    if outline.functions <= callee {
        return Err(Refusal::UnknownByte);
    }
    let g = callee as usize;
    let kinds = outline.kinds[g];
    let guard = outline.guards[g];
    if !place.demand.allows(kind(kinds, guard, 4)) {
        return Err(apart(place.fault));
    }
    let mut next = at;
    for i in 0..at_most_four(outline.params[g]) {
        let argument = Place {
            demand: Demand::Only(kind(kinds, guard, i)),
            fault: Fault::InArgument,
        };
        next = check(frame, &argument, depth, next)?;
    }
    Ok(next)
}

// The kind at a place of a header: of parameter i, and at 4 of the result.
pub fn kind(kinds: u8, guard: u8, i: u64) -> Kind
    ensures { result ≡ kind_at kinds guard i }
{
    syntax::kind_by(trace::bit(kinds as u64, i), trace::bit(guard as u64, i))
}

// A count of parameters, at most four.
pub fn at_most_four(count: u8) -> u64
    ensures { (result ≡ at_most_four count) × (result ≤ 4) }
{
    (count as u64).min(4)
}
