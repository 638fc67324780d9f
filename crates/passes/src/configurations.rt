// The configurations of a function: how many there are, and the parameter values of each. A function is given by its signature.
ghost use Rattle.std.specs.Prelude.{◌≡◌, ◌+◌, ◌-◌, ◌<◌, ◌≤◌, get_or};
ghost use Rattle.syntax.specs.Limits.{most_functions, most_params};
ghost use Rattle.codes.specs.{Short};
ghost use Rattle.passes.specs.Digits.{array_of, first_value, firsts_of, last_value, lasts_of, StepsCells};
ghost use Rattle.passes.specs.Mirror.{most_configurations, short, shortened, count_of, size_from, stepped};

use codes::Lengths;

// The number of parameters of function g.
pub fn count(functions: &[u64; 96], g: usize) -> u64
    requires { g < most_functions }
    ensures { (result ≡ count_of functions.now g) × (result ≤ most_params) }
{
    rule::at_most_four((functions[64 + g] % 256) as u8)
}

// How many configurations a function has.
pub fn size(signature: u64, count: u64, n: Lengths) -> u64
    requires { (count ≤ most_params) × Short n }
    ensures { (result ≡ size_from signature n 0 count) × (result ≤ most_configurations) }
{
    let mut product: u64 = 1;
    for i in (0..count).rev() {
        product *= codes::radix(syntax::kind_at(signature, i), n);
    }
    product
}

// The place of the last parameter; 0 where there is none.
pub fn last(count: u64) -> u64
    ensures { result ≡ count - 1 }
{
    count.saturating_sub(1)
}

// The first values of a function's parameters, by their working numbers; 0 for an absent one.
pub fn firsts(signature: u64, count: u64) -> [u16; 4]
    ensures { result ≡ firsts_of signature count }
{
    [
        first_value(signature, count, 0),
        first_value(signature, count, 1),
        first_value(signature, count, 2),
        first_value(signature, count, 3),
    ]
}

// That of parameter i.
fn first_value(signature: u64, count: u64, i: u64) -> u16
    ensures { result ≡ first_value signature count i }
{
    if count <= i {
        return 0;
    }
    codes::lowest(syntax::kind_at(signature, i)) as u16
}

// Their last values. Apart from firsts, which asks nothing of lengths: one function of both would take the value as a closure.
pub fn lasts(signature: u64, count: u64, n: Lengths) -> [u16; 4]
    requires { Short n }
    ensures { result ≡ lasts_of signature count n }
{
    [
        last_value(signature, count, 0, n),
        last_value(signature, count, 1, n),
        last_value(signature, count, 2, n),
        last_value(signature, count, 3, n),
    ]
}

// That of parameter i.
fn last_value(signature: u64, count: u64, i: u64, n: Lengths) -> u16
    requires { Short n }
    ensures { result ≡ last_value signature count n i }
{
    if count <= i {
        return 0;
    }
    let kind = syntax::kind_at(signature, i);
    (codes::lowest(kind) + codes::radix(kind, n) - 1) as u16
}

// The parameter values of a function's first cell, and at 4 and 5 the origins of places.
pub fn first_values(firsts: &[u16; 4], n: Lengths) -> [u16; 6]
    requires { Short n }
    ensures { result ≡ array_of firsts.now n }
{
    [
        firsts[0],
        firsts[1],
        firsts[2],
        firsts[3],
        n.ram + codes::RAM_OFFSET,
        n.guard + codes::GUARD_OFFSET,
    ]
}

// How many values the last parameter has, by the first and the last.
pub fn row_width(first: u16, last: u16) -> u64
    requires { first ≤ last }
    ensures { result ≡ last + 1 - first }
{
    u64::from(last) + 1 - u64::from(first)
}

// Steps the parameter values from the last cell of a row to the first of the next, as digits: the last parameter, which stands at `slot`, goes
// from its last value back to its first, with a carry to the left: the one before it goes up by one, and where that has reached its last value the carry
// goes on. `env` has the values of those before `slot`.
pub fn step(firsts: &[u16; 4], lasts: &[u16; 4], slot: usize, env: &mut [u16; 6])
    requires { slot < most_params }
    ensures digits { env.new ≡ stepped firsts.now lasts.now slot env.old }
    ensures next { StepsCells firsts.now lasts.now slot env.old (get_or lasts.now slot 0) env.new (get_or firsts.now slot 0) }
{
    for i in (0..slot).rev() {
        if env[i] < lasts[i] {
            env[i] += 1;
            return;
        }
        env[i] = firsts[i];
    }
}

// Whether traces can have such lengths.
pub fn short_lengths(n: Lengths) -> bool
    ensures { result ≡ short n }
{
    usize::from(n.ram.max(n.guard)) <= trace::MOST_SAMPLES
}

// Lengths cut to such.
pub fn shortened_lengths(n: Lengths) -> Lengths
    ensures { result ≡ shortened n }
{
    Lengths {
        ram: n.ram.min(trace::MOST_SAMPLES as u16),
        guard: n.guard.min(trace::MOST_SAMPLES as u16),
    }
}
