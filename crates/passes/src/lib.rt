// One pass over the table, in arrays. Every function answers for all arguments; what it makes of those that no accepted
// program gives is said at it.
#![tactic(auto)]

mod configurations;
pub mod setup;

ghost use Rattle.std.specs.Prelude.{◌≡◌, ◌+◌, ◌<◌, ◌≤◌, length, set};
ghost use Rattle.syntax.specs.Limits.{most_depth};
ghost use Rattle.decoding.specs.Decoding.{signature_in};
ghost use Rattle.evaluator.specs.{function_at, eval_word};
ghost use Rattle.passes.specs.Digits.{AtCell};
ghost use Rattle.passes.specs.Mirror.{setup, first_of, count_of, last_of, size_of, Ready, RowReady, SameOthers, fits, body_at, put_in, stored_at, visit_at, one_unless};
ghost use Rattle.passes.specs.Mirror.{visits_from, stores_from, pass_visits, pass_counts, most_configurations, cleared, main_cell_of};

use codes::Lengths;
use decoding::functions;
use decoding::functions::{FUNCTIONS, STRIDE, WORDS};

// One pass over the cells of so many functions: how many outcomes it stored. A function whose cells do not
// lie within the table is passed over, and so is each from the thirty-third on.
pub fn pass(
    words: &[u64; WORDS],
    traces: &[u8; codes::TRACES_BYTES],
    functions: &[u64; 96],
    table: &mut [u16],
    n: Lengths,
    starts: &[u16; 32],
    count: u8,
) -> usize
    ensures cells { table.new ≡ pass_visits (setup words.now functions.now traces.now) n starts.now count table.old }
    ensures stored { result ≡ pass_counts (setup words.now functions.now traces.now) n starts.now count table.old }
{
    let len = table.len();
    let given = Given {
        words,
        traces,
        functions,
        n,
    };
    let mut stored: usize = 0;
    for g in 0..usize::from(count) {
        if lies_within(functions, n, g, len) {
            let body = body_of(words, starts[g]);
            stored += pass_function(&given, table, g, body);
        }
    }
    stored
}

// Whether the cells of a function lie within a table of so many.
#[tactic(auto, unfolding(crate::specs::Mirror::fits))]
fn lies_within(functions: &[u64; 96], n: Lengths, g: usize, len: usize) -> bool
    ensures { result ≡ fits functions.now n g len }
{
    if usize::from(syntax::MOST_FUNCTIONS) <= g {
        return false;
    }
    if !configurations::short_lengths(n) {
        return false;
    }
    let first = functions[g];
    let cells = len as u64;
    if cells < first {
        return false;
    }
    let count = configurations::count(functions, g);
    configurations::size(functions[32 + g], count, n) <= cells - first
}

// The word of the body that starts at a place.
pub fn body_of(words: &[u64; WORDS], start: u16) -> u64
    ensures { result ≡ body_at words.now start }
{
    words[usize::from(start % 4096)]
}

// What a pass does not change: the words and the functions of an evaluation, the bytes of both traces and their lengths.
#[derive(Clone, Copy)]
struct Given<'a> {
    words: &'a [u64; WORDS],
    traces: &'a [u8; codes::TRACES_BYTES],
    functions: &'a [u64; 96],
    n: Lengths,
}

// A function that a pass visits: its number, its word and that of its body, its first cell, the place of its last parameter, the
// first value of that and how many it has.
#[derive(Clone, Copy)]
struct Function {
    g: usize,
    word: u64,
    body: u64,
    first: u64,
    slot: usize,
    low: u16,
    width: u64,
}

// Visits the cells of a function in rising order, row by row: how many outcomes were stored. In a row only the last parameter's value
// differs; the others step from row to row.
fn pass_function(given: &Given, table: &mut [u16], g: usize, body: u64) -> usize
    requires { Ready given.now.functions.now given.now.n g (length table.old) }
    ensures cells { table.new ≡ visits_from (setup given.now.words.now given.now.functions.now given.now.traces.now) given.now.n g body 0 (size_of given.now.functions.now given.now.n g) table.old }
    ensures stored { (result ≡ stores_from (setup given.now.words.now given.now.functions.now given.now.traces.now) given.now.n g body 0 (size_of given.now.functions.now given.now.n g) table.old) × (result ≤ most_configurations) }
{
    let functions = given.functions;
    let n = given.n;
    let signature = functions[32 + g];
    let count = configurations::count(functions, g);
    let size = configurations::size(signature, count, n);
    let slot = configurations::last(count) as usize;
    let firsts = configurations::firsts(signature, count);
    let lasts = configurations::lasts(signature, count, n);
    let low = firsts[slot];
    let width = configurations::row_width(low, lasts[slot]);
    let word = given.words[FUNCTIONS + STRIDE * g];
    let first = functions[g];
    let function = Function {
        g,
        word,
        body,
        first,
        slot,
        low,
        width,
    };
    let mut env = configurations::first_values(&firsts, n);
    let mut stored: usize = 0;
    let mut index: u64 = 0;
    // no range: how many rows there are would take a division
    while index < size {
        stored = row(given, &function, table, &mut env, index, stored);
        configurations::step(&firsts, &lasts, slot, &mut env);
        index += width;
    }
    stored
}

// Visits the cells of a row, from configuration `index` on: how many outcomes are then stored, if so many were before. `env` has the
// values of all parameters but the last, whose values follow one another.
fn row(
    given: &Given,
    function: &Function,
    table: &mut [u16],
    env: &mut [u16; 6],
    index: u64,
    before: usize,
) -> usize
    requires at_cell { AtCell (signature_in given.now.functions.now function.now.g) (count_of given.now.functions.now function.now.g) given.now.n index env.old function.now.low }
    requires row_ready { RowReady given.now.words.now given.now.functions.now given.now.n function.now.g (length table.old) function.now.word function.now.slot function.now.low function.now.width }
    requires start_value { (function.now.first ≡ first_of given.now.functions.now function.now.g) × (before ≤ index) }
    ensures cells { table.new ≡ visits_from (setup given.now.words.now given.now.functions.now given.now.traces.now) given.now.n function.now.g function.now.body index function.now.width table.old }
    ensures env { SameOthers (last_of given.now.functions.now function.now.g) env.old env.new }
    ensures stored { result ≡ before + stores_from (setup given.now.words.now given.now.functions.now given.now.traces.now) given.now.n function.now.g function.now.body index function.now.width table.old }
{
    let mut stored = before;
    for d in 0..function.width {
        stored = visit(
            given,
            function,
            table,
            env,
            index + d,
            function.low + d as u16,
            stored,
        );
    }
    stored
}

// Visits the cell of configuration `index`: how many outcomes are then stored, if so many were. `env` has the values of all parameters
// but the last, whose value is `digit`; it is put in if the cell is undecided. A decided cell costs a load and two tests.
fn visit(
    given: &Given,
    function: &Function,
    table: &mut [u16],
    env: &mut [u16; 6],
    index: u64,
    digit: u16,
    stored: usize,
) -> usize
    requires at_cell { AtCell (signature_in given.now.functions.now function.now.g) (count_of given.now.functions.now function.now.g) given.now.n index env.old digit }
    requires ready { Ready given.now.functions.now given.now.n function.now.g (length table.old) × (stored ≤ most_configurations) }
    requires function_value { (function.now.word ≡ function_at given.now.words.now function.now.g) × (function.now.slot ≡ last_of given.now.functions.now function.now.g) × (function.now.first ≡ first_of given.now.functions.now function.now.g) }
    ensures cells { table.new ≡ visit_at (setup given.now.words.now given.now.functions.now given.now.traces.now) given.now.n function.now.g function.now.body table.old index }
    ensures env { SameOthers (last_of given.now.functions.now function.now.g) env.old env.new }
    ensures stored { result ≡ stored + one_unless (stored_at (setup given.now.words.now given.now.functions.now given.now.traces.now) given.now.n function.now.g function.now.body table.old index) }
{
    let cell = (function.first + index) as usize;
    if functions::held(function.word, table[cell]) != codes::UNDECIDED {
        return stored;
    }
    fill(given, function, table, env, digit, cell, stored)
}

// Puts a value in, takes the body on the values and stores what is decided in a cell: how many outcomes are then
// stored, if so many were.
fn fill(
    given: &Given,
    function: &Function,
    table: &mut [u16],
    env: &mut [u16; 6],
    value: u16,
    cell: usize,
    stored: usize,
) -> usize
    requires { (function.now.slot < 6) × (cell < length table.old) × (stored ≤ most_configurations) }
    ensures cells { table.new ≡ put_in table.old cell (eval_word given.now.words.now given.now.traces.now table.old (set env.old function.now.slot value) most_depth function.now.body) }
    ensures env { env.new ≡ set env.old function.now.slot value }
    ensures stored { result ≡ stored + one_unless (eval_word given.now.words.now given.now.traces.now table.old (set env.old function.now.slot value) most_depth function.now.body) }
{
    env[function.slot] = value;
    let outcome = bodies::outcome(given.words, given.traces, table, env, function.body);
    if outcome == codes::UNDECIDED {
        return stored;
    }
    table[cell] = codes::cell(outcome);
    stored + 1
}

// Makes the first so many cells undecided, as many of them as there are.
pub fn clear(table: &mut [u16], needed: usize)
    ensures { table.new ≡ cleared needed table.old }
{
    let last = needed.min(table.len());
    table[..last].fill(codes::UNDECIDED);
}

// Main's cell on the whole traces: the last of function 0. Lengths above 4,095 count as 4,095.
pub fn main_cell(functions: &[u64; 96], n: Lengths) -> usize
    ensures { result ≡ main_cell_of functions.now n }
{
    let count = configurations::count(functions, 0);
    (configurations::size(functions[32], count, configurations::shortened_lengths(n)) - 1) as usize
}
