// The outcome of a body. Its spine is its first node, and after an if the branch chosen. Nodes of the spine are taken with no
// recursion where an if has its condition beside it, and where the arguments of a call are leaves and its result is no guard list;
// all else is the evaluator's.
#![tactic(auto)]

ghost use Rattle.std.specs.Prelude.{◌≡◌, ◌<◌, ◌≤◌};
ghost use Rattle.syntax.specs.Limits.{most_depth};
ghost use Rattle.decoding.specs.Words.{sort_of, if_param_sort, call_sort, call_one_sort};
ghost use Rattle.evaluator.specs.{eval_word, branch_at};
ghost use Rattle.bodies.specs.{sort_at};

use decoding::functions::WORDS;
use decoding::nodes;
use evaluator::{branch_of, call_leaves, call_with, eval, leaf, param};

// The number of the outcome of a body, by its word. `env` has the working numbers of the parameter values, and
// at 4 and 5 the origins of places.
pub fn outcome(
    words: &[u64; WORDS],
    traces: &[u8; codes::TRACES_BYTES],
    table: &[u16],
    env: &[u16; 6],
    body: u64,
) -> u16
    ensures { result ≡ eval_word words.now traces.now table.now env.now most_depth body }
{
    take(words, traces, &table, env, syntax::MOST_DEPTH, body)
}

// The number of the outcome of a node of the spine.
#[cycle(branch_conditional_take)]
fn take(
    words: &[u64; WORDS],
    traces: &[u8; codes::TRACES_BYTES],
    table: &&[u16],
    env: &[u16; 6],
    depth: u8,
    node: u64,
) -> u16
    requires { 0 < depth }
    ensures { result ≡ eval_word words.now traces.now table.now.now env.now depth node }
{
    let left = depth - 1;
    if left == 0 {
        return eval(words, traces, table, env, depth, node);
    }
    let sort = nodes::sort(node);
    if sort < nodes::IF_PARAM {
        return eval(words, traces, table, env, depth, node);
    }
    if sort < nodes::CALL {
        return conditional(words, traces, table, env, left, node, sort);
    }
    if sort == nodes::CALL_ONE {
        return call_one(words, traces, table, env, depth, node);
    }
    if sort == nodes::CALL_LEAVES {
        return call_leaves(words, traces, table, env, node);
    }
    eval(words, traces, table, env, depth, node)
}

// An if that has its condition beside it, by its sort. That a list is not empty is told first: it is so most often.
#[cycle(branch_conditional_take)]
fn conditional(
    words: &[u64; WORDS],
    traces: &[u8; codes::TRACES_BYTES],
    table: &&[u16],
    env: &[u16; 6],
    depth: u8,
    node: u64,
    sort: u64,
) -> u16
    requires { (0 < depth) × (if_param_sort ≤ sort) × (sort < call_sort) }
    ensures { result ≡ sort_at words.now traces.now table.now.now env.now depth node sort }
{
    let value = param(env, node);
    if sort == nodes::IF_NULL {
        if codes::has_samples(value) {
            return take(words, traces, table, env, depth, nodes::third(words, node));
        }
        return branch(words, traces, table, env, depth, node, codes::null(value));
    }
    if sort == nodes::IF_HEAD {
        return branch(
            words,
            traces,
            table,
            env,
            depth,
            node,
            codes::head(traces, env, value),
        );
    }
    branch(words, traces, table, env, depth, node, value)
}

// The branch that a condition's outcome chooses. The evaluator's goes on with eval, in its own cycle of calls: what both choose by
// is branch_of.
#[cycle(branch_conditional_take)]
fn branch(
    words: &[u64; WORDS],
    traces: &[u8; codes::TRACES_BYTES],
    table: &&[u16],
    env: &[u16; 6],
    depth: u8,
    node: u64,
    chosen: u16,
) -> u16
    requires { 0 < depth }
    ensures { result ≡ branch_at words.now traces.now table.now.now env.now depth node chosen }
{
    match branch_of(words, node, chosen) {
        Some(next) => take(words, traces, table, env, depth, next),
        None => chosen,
    }
}

// A call with one argument whose result is no guard list, if the argument is a leaf.
fn call_one(
    words: &[u64; WORDS],
    traces: &[u8; codes::TRACES_BYTES],
    table: &&[u16],
    env: &[u16; 6],
    depth: u8,
    node: u64,
) -> u16
    requires { (1 < depth) × (sort_of node ≡ call_one_sort) }
    ensures { result ≡ eval_word words.now traces.now table.now.now env.now depth node }
{
    match leaf(traces, env, nodes::first(words, node)) {
        Some(value) => call_with(words, table, node, value),
        None => eval(words, traces, table, env, depth, node),
    }
}
