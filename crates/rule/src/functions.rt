// A program's functions: the headers one after the other, main's kind, then the bodies; 7 to 11 and 17
// of the list.
ghost use Rattle.std.specs.Prelude.{◌≡◌, length, drop};
ghost use Rattle.rule.specs.Reading.{onward, apart, raws_from, bodies_from};
ghost use Rattle.rule.specs.Outline.{judged_from};
ghost use Rattle.rule.specs.Walk.{frame_of, Sized, frame_at, main_bits, body_at, bodies_at, Placed, Counted, scan_from};

use crate::expression::{Fault, Frame, Place};
use crate::{Outline, expression};
use refusal::Refusal;
use semantics::{Contact, Demand, Kind, Sort};

// Checks the functions of a program of a sort, of so many.
pub fn check_functions(program: &[u8], sort: Sort, count: u8) -> Result<Outline, Refusal>
    requires { Counted program.now count }
    ensures { result ≡ judged_from sort (onward (raws_from sort count (drop 1 program.now)) (bodies_from apart sort)) }
{
    let scan = scan_headers(program, sort, count)?;
    if scan.end < program.len() {
        return Err(Refusal::BytesAfterFunctions);
    }
    let outline = scan.outline;
    if !is_main(sort, outline.params[0], outline.kinds[0], outline.guards[0]) {
        return Err(Refusal::MainKind);
    }
    check_bodies(program, sort, &outline)?;
    Ok(outline)
}

// What the headers say: where the functions stand, and the place after the last.
#[derive(Clone, Copy)]
pub struct Scan {
    pub outline: Outline,
    pub end: usize,
}

// Reads so many headers, each after the body of the one before.
fn scan_headers(program: &[u8], sort: Sort, count: u8) -> Result<Scan, Refusal>
    requires { Counted program.now count }
    ensures { result ≡ scan_from sort (length program.now) (raws_from sort count (drop 1 program.now)) }
{
    let size = syntax::header_bytes(sort);
    let mut outline = Outline {
        functions: count,
        params: [0; 32],
        kinds: [0; 32],
        guards: [0; 32],
        starts: [0; 32],
        ends: [0; 32],
    };
    let mut at: usize = 1;
    for i in 0..count as usize {
        let header = syntax::header_at(program, sort, at)?;
        let start = at + size;
        let end = start + (header.length as usize);
        outline.params[i] = header.params;
        outline.kinds[i] = header.kinds;
        outline.guards[i] = header.guard;
        outline.starts[i] = start as u16;
        outline.ends[i] = end as u16;
        at = end;
    }
    Ok(Scan { outline, end: at })
}

// Whether a header is main's: a ram list, of two contacts a guard list after it, Bool result.
fn is_main(sort: Sort, params: u8, kinds: u8, guard: u8) -> bool
    ensures { result ≡ main_bits sort params kinds guard }
{
    let kind = |i: u64| expression::kind(kinds, guard, i);
    if kind(0) != Kind::List(Contact::Ram) || kind(4) != Kind::Truth {
        return false;
    }
    match sort {
        Sort::One => params == 1,
        Sort::Two => params == 2 && kind(1) == Kind::List(Contact::Guard),
    }
}

// Checks the bodies, the first function's first.
fn check_bodies(program: &[u8], sort: Sort, outline: &Outline) -> Result<(), Refusal>
    requires { Placed (length program.now) outline.now }
    ensures { result ≡ bodies_at (frame_at program.now sort outline.now) outline.now.functions 0 }
{
    for own in 0..outline.functions as usize {
        let start = outline.starts[own] as usize;
        let end = outline.ends[own] as usize;
        let frame = Frame {
            body: &program[start..end],
            sort,
            outline,
            own,
        };
        check_body(&frame)?;
    }
    Ok(())
}

// Checks one body: an expression of the result kind, and nothing after it.
fn check_body(frame: &Frame) -> Result<(), Refusal>
    requires { Sized (frame_of frame.now) }
    ensures { result ≡ body_at (frame_of frame.now) }
{
    let outline = frame.outline;
    let place = Place {
        demand: Demand::Only(expression::kind(
            outline.kinds[frame.own],
            outline.guards[frame.own],
            4,
        )),
        fault: Fault::InResult,
    };
    let end = expression::check(frame, &place, syntax::MOST_DEPTH as usize, 0)?;
    if end == frame.body.len() {
        Ok(())
    } else {
        Err(Refusal::BytesAfterExpression)
    }
}
