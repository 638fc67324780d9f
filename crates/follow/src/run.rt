// Calls followed in a loop, over the words of a program: no table is filled, and no call is kept.
ghost use Rattle.std.specs.Prelude.{◌≡◌, ◌≤◌, get_or};
ghost use Rattle.follow.specs.Mirror.{value_told, args_told, is_if, condition_by, branch_word, spine_of, arg_by, args_stop, args_left, args_stop_at, args_left_at, BodiesUpto, run_from};
ghost use Rattle.decoding.specs.Words.{places_of};
ghost use Rattle.evaluator.specs.{eval_at};
ghost use Rattle.syntax.specs.Limits.{most_depth, most_params};

use decoding::functions::WORDS;
use decoding::nodes;
use evaluator::{eval, operand, param};

// What following comes to: the working number of the outcome, undecided where all calls were made, and how many were. An Option
// would be no plainer: `main_decision` takes this very number, in which undecided is 'forever'.
#[derive(Clone, Copy)]
pub struct Ran {
    pub outcome: u16,
    pub calls: u64,
}

// The words of the bodies, by the places where they start.
pub fn bodies_of(words: &[u64; WORDS], starts: &[u16; 32]) -> [u64; 32]
    ensures { BodiesUpto words.now starts.now 32 result }
{
    starts.map(|start| passes::body_of(words, start))
}

// `words`, `traces` and `none` come one by one here and below, since `eval` and `operand` take each by itself: a struct of them would be
// no plainer, as it would be taken apart at each call.
// Follows the calls from function 0 on given values, until it ends or so many calls were made. `bodies` has the words of the bodies.
// `none` is what calls outside of loops would be looked up in: no cells.
pub fn run(
    words: &[u64; WORDS],
    traces: &[u8; codes::TRACES_BYTES],
    none: &[u16],
    bodies: &[u64; 32],
    first: [u16; 6],
    most: u64,
) -> Ran
    ensures { result ≡ run_from words.now traces.now none.now bodies.now most 0 first (get_or bodies.now 0 0) }
{
    let mut env = first;
    let mut body = bodies[0];
    for calls in 0..most {
        let node = spine(words, traces, &none, &env, body);
        if nodes::sort(node) < nodes::CALL {
            let outcome = eval(words, traces, &none, &env, syntax::MOST_DEPTH, node);
            return Ran { outcome, calls };
        }
        if let Err(outcome) = arguments(words, traces, &none, &mut env, node) {
            return Ran { calls, outcome };
        }
        body = bodies[nodes::callee(node)];
    }
    Ran {
        outcome: codes::UNDECIDED,
        calls: most,
    }
}

// The node that a body comes to along its ifs: the first that is no if. Where a condition has no truth value, a constant with its number.
fn spine(
    words: &[u64; WORDS],
    traces: &[u8; codes::TRACES_BYTES],
    none: &&[u16],
    env: &[u16; 6],
    body: u64,
) -> u64
    ensures { result ≡ spine_of words.now traces.now none.now.now env.now most_depth body }
{
    let mut node = body;
    for _ in 0..syntax::MOST_DEPTH {
        if !is_if(nodes::sort(node)) {
            return node;
        }
        node = branch(words, node, condition(words, traces, none, env, node));
    }
    decoding::program::constant(codes::UNDECIDED)
}

// The node of the branch that a condition's outcome chooses; a constant with its number where it chooses none.
#[tactic(auto, unfolding(crate::specs::Mirror::branch_word))]
fn branch(words: &[u64; WORDS], node: u64, chosen: u16) -> u64
    ensures { result ≡ branch_word words.now node chosen }
{
    match chosen {
        codes::TRUE => nodes::second(words, node),
        codes::FALSE => nodes::third(words, node),
        _ => decoding::program::constant(chosen),
    }
}

// Whether a sort is that of an if.
fn is_if(sort: u64) -> bool
    ensures { result ≡ is_if sort }
{
    nodes::IF <= sort && sort < nodes::CALL
}

// What the condition of an if gives: beside it, or where it stands.
#[tactic(auto, unfolding(crate::specs::Mirror::condition_by))]
fn condition(
    words: &[u64; WORDS],
    traces: &[u8; codes::TRACES_BYTES],
    none: &&[u16],
    env: &[u16; 6],
    node: u64,
) -> u16
    ensures { result ≡ condition_by words.now traces.now none.now.now env.now node }
{
    match nodes::sort(node) {
        nodes::IF_NULL => codes::null(param(env, node)),
        nodes::IF_HEAD => codes::head(traces, env, param(env, node)),
        nodes::IF_PARAM => param(env, node),
        _ => eval(
            words,
            traces,
            none,
            env,
            syntax::MOST_DEPTH,
            nodes::first(words, node),
        ),
    }
}

// The arguments of a call: their values in `env`; or the number of the first error, left to right, which leaves `env` as it was.
#[tactic(auto, unfolding(crate::specs::Mirror::args_stop_at, crate::specs::Mirror::args_left_at))]
fn arguments(
    words: &[u64; WORDS],
    traces: &[u8; codes::TRACES_BYTES],
    none: &&[u16],
    env: &mut [u16; 6],
    node: u64,
) -> Result<(), u16>
    ensures stop { result ≡ args_told (args_stop_at words.now traces.now none.now.now env.old node) }
    ensures env { env.new ≡ args_left_at words.now traces.now none.now.now env.old node }
{
    if nodes::sort(node) == nodes::CALL_ONE {
        return put::<1>(words, traces, none, env, 1, node);
    }
    put::<4>(words, traces, none, env, nodes::count(node) as usize, node)
}

// So many arguments of a call that has places for `PLACES`. All have values before one is put in.
fn put<const PLACES: usize>(
    words: &[u64; WORDS],
    traces: &[u8; codes::TRACES_BYTES],
    none: &&[u16],
    env: &mut [u16; 6],
    count: usize,
    node: u64,
) -> Result<(), u16>
    requires { PLACES ≤ most_params }
    ensures stop { result ≡ args_told (args_stop (eval_at words.now traces.now none.now.now env.old most_depth) count PLACES 0 (places_of node)) }
    ensures env { env.new ≡ args_left (eval_at words.now traces.now none.now.now env.old most_depth) count PLACES (places_of node) env.old }
{
    let mut next = *env;
    let mut places = nodes::places(node);
    for i in 0..PLACES {
        next[i] = value(argument(words, traces, none, env, i < count, places))?;
        places /= 4096;
    }
    *env = next;
    Ok(())
}

// The argument at the first of some places, if there is one.
#[tactic(auto, unfolding(crate::specs::Mirror::arg_by))]
fn argument(
    words: &[u64; WORDS],
    traces: &[u8; codes::TRACES_BYTES],
    none: &&[u16],
    env: &[u16; 6],
    there: bool,
    places: u64,
) -> u16
    ensures { result ≡ arg_by (eval_at words.now traces.now none.now.now env.now most_depth) there places }
{
    if there {
        operand(
            words,
            traces,
            none,
            env,
            syntax::MOST_DEPTH,
            nodes::at(words, places),
        )
    } else {
        codes::UNDECIDED
    }
}

// The value that a number stands for by itself, or the number of an error.
fn value(number: u16) -> Result<u16, u16>
    ensures { result ≡ value_told number }
{
    if number == codes::HEAD || number == codes::TAIL {
        Err(number)
    } else {
        Ok(number)
    }
}
