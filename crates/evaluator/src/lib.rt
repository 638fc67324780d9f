// The outcome of a decoded expression, with calls looked up in a table. Nodes and functions stand in one lent array, the
// bytes of both traces and the parameter values in others; an outcome is its working number.
#![tactic(auto)]

ghost use Rattle.std.specs.Prelude.{◌≡◌, ◌%◌, ◌<◌, slice_index};
ghost use Rattle.decoding.specs.Words.{param_of};
ghost use Rattle.evaluator.specs.{digit_bound, most_index, next_index, Digit, lookup_by, passed_by, working_by, param_leaf_of, constant_leaf_of, leaf_of, branch_word, branch_at, call_at, call_with_at, call_one_at, call_leaves_at, eval_word};

use decoding::functions::{FUNCTIONS, STRIDE, WORDS};
use decoding::{functions, nodes};

// The number of the outcome of a node. The table is a reference to its slice: it goes from call to call as one
// word. The four that are lent stand as parameters, and in no struct: table and env change from cell to cell, so that a struct of
// them would be made anew for each. All sixteen sorts stand here, so that no range is tested.
#[cycle(branch_call_call_one_eval_operand)]
pub fn eval(
    words: &[u64; WORDS],
    traces: &[u8; codes::TRACES_BYTES],
    table: &&[u16],
    env: &[u16; 6],
    depth: u8,
    node: u64,
) -> u16
    ensures { result ≡ eval_word words.now traces.now table.now.now env.now depth node }
{
    if depth == 0 {
        return codes::UNDECIDED;
    }
    let left = depth - 1;
    let sort = nodes::sort(node);
    match sort {
        nodes::CONSTANT => nodes::constant(node),
        nodes::PARAM => param(env, node),
        nodes::HEAD => codes::head(
            traces,
            env,
            operand(words, traces, table, env, left, nodes::first(words, node)),
        ),
        nodes::TAIL => codes::tail(operand(
            words,
            traces,
            table,
            env,
            left,
            nodes::first(words, node),
        )),
        nodes::NULL => codes::null(operand(
            words,
            traces,
            table,
            env,
            left,
            nodes::first(words, node),
        )),
        nodes::HEAD_PARAM => codes::head(traces, env, param(env, node)),
        nodes::TAIL_PARAM => codes::tail(param(env, node)),
        nodes::NULL_PARAM => codes::null(param(env, node)),
        nodes::IF => branch(
            words,
            traces,
            table,
            env,
            left,
            node,
            eval(words, traces, table, env, left, nodes::first(words, node)),
        ),
        nodes::IF_PARAM => branch(words, traces, table, env, left, node, param(env, node)),
        nodes::IF_NULL => branch(
            words,
            traces,
            table,
            env,
            left,
            node,
            codes::null(param(env, node)),
        ),
        nodes::IF_HEAD => branch(
            words,
            traces,
            table,
            env,
            left,
            node,
            codes::head(traces, env, param(env, node)),
        ),
        nodes::CALL | nodes::CALL_GUARD => working(
            sort,
            call(words, traces, table, env, left, node),
        ),
        nodes::CALL_ONE => call_one(words, traces, table, env, left, node),
        nodes::CALL_LEAVES => call_leaves(words, traces, table, env, node),
        _ => codes::UNDECIDED,
    }
}

// As eval; a leaf that names a parameter is taken at once.
#[cycle(branch_call_call_one_eval_operand)]
pub fn operand(
    words: &[u64; WORDS],
    traces: &[u8; codes::TRACES_BYTES],
    table: &&[u16],
    env: &[u16; 6],
    depth: u8,
    node: u64,
) -> u16
    ensures { result ≡ eval_word words.now traces.now table.now.now env.now depth node }
{
    if depth == 0 {
        return codes::UNDECIDED;
    }
    match param_leaf(traces, env, node) {
        Some(number) => number,
        None => eval(words, traces, table, env, depth, node),
    }
}

// The branch that a condition's outcome chooses.
#[cycle(branch_call_call_one_eval_operand)]
fn branch(
    words: &[u64; WORDS],
    traces: &[u8; codes::TRACES_BYTES],
    table: &&[u16],
    env: &[u16; 6],
    depth: u8,
    node: u64,
    chosen: u16,
) -> u16
    ensures { result ≡ branch_at words.now traces.now table.now.now env.now depth node chosen }
{
    match branch_of(words, node, chosen) {
        Some(next) => eval(words, traces, table, env, depth, next),
        None => chosen,
    }
}

// The node of the branch that a condition's outcome chooses; None for an outcome that is the if's too.
pub fn branch_of(words: &[u64; WORDS], node: u64, chosen: u16) -> Option<u64>
    ensures { result ≡ branch_word words.now node chosen }
{
    if chosen == codes::TRUE {
        return Some(nodes::second(words, node));
    }
    if chosen == codes::FALSE {
        return Some(nodes::third(words, node));
    }
    None
}

// A call: its arguments left to right, then what the table holds for the callee on them, as the number in its cell. A value
// that is none of its parameter's kind, undecided and errors too, is the outcome.
#[cycle(branch_call_call_one_eval_operand)]
fn call(
    words: &[u64; WORDS],
    traces: &[u8; codes::TRACES_BYTES],
    table: &&[u16],
    env: &[u16; 6],
    depth: u8,
    node: u64,
) -> u16
    ensures { result ≡ call_at words.now traces.now table.now.now env.now depth node }
{
    let place = FUNCTIONS + STRIDE * nodes::callee(node);
    let count = nodes::count(node);
    let mut rest = nodes::places(node);
    let mut index: u64 = 0;
    for i in 0..count {
        let value = operand(words, traces, table, env, depth, nodes::at(words, rest));
        let kind = words[place + 1 + i as usize];
        let Some(next) = passed(kind, index, value) else {
            return value;
        };
        index = next;
        rest /= 4096;
    }
    lookup(words[place], table, index)
}

// As call, for one argument.
#[cycle(branch_call_call_one_eval_operand)]
fn call_one(
    words: &[u64; WORDS],
    traces: &[u8; codes::TRACES_BYTES],
    table: &&[u16],
    env: &[u16; 6],
    depth: u8,
    node: u64,
) -> u16
    ensures { result ≡ call_one_at words.now traces.now table.now.now env.now depth node }
{
    let value = operand(words, traces, table, env, depth, nodes::first(words, node));
    call_with(words, table, node, value)
}

// What a call of one argument gives, by the argument's value: its digit is the configuration's number.
pub fn call_with(words: &[u64; WORDS], table: &&[u16], node: u64, value: u16) -> u16
    ensures { result ≡ call_with_at words.now table.now.now node value }
{
    let place = FUNCTIONS + STRIDE * nodes::callee(node);
    let kind = words[place + 1];
    let digit = digit(kind, value);
    if functions::values(kind) <= digit {
        return value;
    }
    lookup(words[place], table, digit)
}

// As call, for arguments that are leaves: there is no recursion. A function of both would take what differs, how an argument is
// taken, as a closure, which would be in the cycle of calls of `call`: no plainer than the loop, whose turn is `passed`.
pub fn call_leaves(
    words: &[u64; WORDS],
    traces: &[u8; codes::TRACES_BYTES],
    table: &&[u16],
    env: &[u16; 6],
    node: u64,
) -> u16
    ensures { result ≡ call_leaves_at words.now traces.now table.now.now env.now node }
{
    let place = FUNCTIONS + STRIDE * nodes::callee(node);
    let count = nodes::count(node);
    let mut places = nodes::places(node);
    let mut index: u64 = 0;
    for i in 0..count {
        let argument = nodes::at(words, places);
        let value = leaf(traces, env, argument).unwrap_or(nodes::constant(argument));
        let range = words[place + 1 + i as usize];
        let Some(next) = passed(range, index, value) else {
            return value;
        };
        index = next;
        places /= 4096;
    }
    lookup(words[place], table, index)
}

// The number of the outcome of a leaf: tl of a parameter, a parameter, its hd or a constant. None for other nodes.
pub fn leaf(traces: &[u8; codes::TRACES_BYTES], env: &[u16; 6], node: u64) -> Option<u16>
    ensures { result ≡ leaf_of traces.now env.now node }
{
    match param_leaf(traces, env, node) {
        Some(number) => Some(number),
        None => constant_leaf(node),
    }
}

// The same of a leaf that names a parameter. These stand apart from constants: nearly all operands and arguments name a parameter, and
// a test for each of the three sorts finds them.
#[tactic(auto, unfolding(crate::specs::leaf_by, decoding::specs::Words::is_leaf))]
fn param_leaf(traces: &[u8; codes::TRACES_BYTES], env: &[u16; 6], node: u64) -> Option<u16>
    ensures { result ≡ param_leaf_of traces.now env.now node }
{
    let sort = nodes::sort(node);
    if sort == nodes::TAIL_PARAM {
        return Some(codes::tail(param(env, node)));
    }
    if sort == nodes::PARAM {
        return Some(param(env, node));
    }
    if sort == nodes::HEAD_PARAM {
        return Some(codes::head(traces, env, param(env, node)));
    }
    None
}

// A constant; None for other nodes.
fn constant_leaf(node: u64) -> Option<u16>
    ensures { result ≡ constant_leaf_of node }
{
    if nodes::sort(node) == nodes::CONSTANT {
        return Some(nodes::constant(node));
    }
    None
}

// The working number of what a call gave, by the sort of its node.
fn working(sort: u64, number: u16) -> u16
    ensures { result ≡ working_by sort number }
{
    if sort == nodes::CALL_GUARD {
        codes::shifted(number)
    } else {
        number
    }
}

// The value of the parameter that a node names.
pub fn param(env: &[u16; 6], node: u64) -> u16
    ensures { result ≡ slice_index env.now (param_of node) }
{
    env[nodes::param(node)]
}

// The number of a configuration with an argument's digit more, by the word of its parameter; None for a value that is none of
// the parameter's kind.
fn passed(kind: u64, index: u64, value: u16) -> Option<u64>
    ensures { result ≡ passed_by kind index value }
{
    let values = functions::values(kind);
    let digit = digit(kind, value);
    if values <= digit {
        return None;
    }
    Some(next_index(index, values, digit))
}

// The place of a value among those of its kind; what is no value of it comes after them all.
pub fn digit(kind: u64, value: u16) -> u64
    ensures { Digit kind value result }
{
    u64::from(value).wrapping_sub(functions::lowest(kind))
}

// One digit more of a configuration's number. The numbers of a table that is lent stay far below 2 ^ 32, and
// radices and digits below 2 ^ 16; of others the lowest bits are taken.
pub fn next_index(index: u64, radix: u64, digit: u64) -> u64
    ensures { (result ≡ next_index index (radix % digit_bound) (digit % digit_bound)) × (result < most_index) }
{
    (index % 4294967296) * (radix % 65536) + digit % 65536
}

// The number of what the table holds for a configuration of a function, by the function's word. The configuration's number is
// below 2 ^ 49; of others the lowest bits are taken.
pub fn lookup(function: u64, table: &&[u16], index: u64) -> u16
    ensures { result ≡ lookup_by function table.now.now (index % most_index) }
{
    let cell = (functions::first_cell(function) + index % 562949953421312) as usize;
    match table.get(cell) {
        Some(&number) => functions::held(function, number),
        None => codes::UNDECIDED,
    }
}
