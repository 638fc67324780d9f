// What following a settled program that only loops comes to.
ghost use Rattle.std.specs.Prelude.{◌≡◌, true};
ghost use Rattle.semantics.specs.Handed.{samples_of};
ghost use Rattle.semantics.specs.Numbering.{most_cells};
ghost use Rattle.rule.specs.Reading.{program_of};
ghost use Rattle.codes.specs.{Short};
ghost use Rattle.prepare.specs.Settled.{IsSettled};
ghost use Rattle.prepare.specs.Checks.{handed_in};
ghost use Rattle.chains.specs.Loops.{only_loops};
ghost use Rattle.chains.specs.Following.{followed};
ghost use Rattle.follow.specs.Mirror.{whole_values};

use crate::run;
use chains::Followed;
use codes::Lengths;
use decoding::functions::WORDS;
use prepare::Prepared;

// The decision of a settled program of a sort that only loops, and the calls made.
pub fn decide(ready: &Prepared) -> Followed
    requires { IsSettled ready.now most_cells × (only_loops (program_of ready.now.program.now) ≡ true) }
    ensures { result ≡ followed ready.now.handed.sort (program_of ready.now.program.now) (samples_of (handed_in ready.now.handed)) }
{
    let mut words = [0u64; WORDS];
    ready.fill(&mut words);
    let bodies = run::bodies_of(&words, &ready.outline.starts);
    let ran = run::run(
        &words,
        &ready.traces(),
        &[],
        &bodies,
        whole_values(ready.lengths),
        ready.cells.total,
    );
    Followed {
        decision: semantics::main_decision(ran.outcome),
        calls: ran.calls as u32,
    }
}

// The values of main's parameters: the whole trace or traces, by their working numbers; and at 4 and 5 the origins of places. With one
// trace the second is not read.
fn whole_values(n: Lengths) -> [u16; 6]
    requires { Short n }
    ensures { result ≡ whole_values n }
{
    [
        n.ram + codes::SUFFIX,
        n.guard + codes::GUARD_SUFFIX,
        0,
        0,
        n.ram + codes::RAM_OFFSET,
        n.guard + codes::GUARD_OFFSET,
    ]
}
