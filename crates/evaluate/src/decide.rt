// What a settled evaluation decides, and what one pass of it stores.
ghost use Rattle.std.specs.Prelude.{◌≡◌, length};
ghost use Rattle.semantics.specs.Handed.{samples_of};
ghost use Rattle.semantics.specs.Visits.{pass, pass_stores};
ghost use Rattle.semantics.specs.Verdicts.{verdict_of};
ghost use Rattle.semantics.specs.Passes.{decided_table};
ghost use Rattle.rule.specs.Reading.{program_of};
ghost use Rattle.prepare.specs.Settled.{IsSettled};
ghost use Rattle.prepare.specs.Checks.{handed_in};

use decoding::functions::WORDS;
use prepare::Prepared;
use semantics::Verdict;

// The verdict of a settled evaluation of a sort, and its cells in the table.
pub fn decide(ready: &Prepared, table: &mut [u16]) -> Verdict
    requires { IsSettled ready.now (length table.old) }
    ensures verdict { result ≡ verdict_of (program_of ready.now.program.now) (samples_of (handed_in ready.now.handed)) }
    ensures cells { table.new ≡ decided_table (program_of ready.now.program.now) (samples_of (handed_in ready.now.handed)) table.old }
{
    let mut words = [0u64; WORDS];
    ready.fill(&mut words);
    passes::clear(table, ready.cells.total as usize);
    let passes = fixpoint::run(
        &words,
        &ready.traces(),
        &ready.cells.functions,
        table,
        ready.lengths,
        &ready.outline.starts,
        ready.outline.functions,
    );
    let main = table[passes::main_cell(&ready.cells.functions, ready.lengths)];
    Verdict {
        decision: semantics::main_decision(main),
        passes,
    }
}

// One pass of a settled evaluation of a sort over the table as it is: how many outcomes it stored.
pub fn pass_once(ready: &Prepared, table: &mut [u16]) -> usize
    requires { IsSettled ready.now (length table.old) }
    ensures stored { result ≡ pass_stores (program_of ready.now.program.now) (samples_of (handed_in ready.now.handed)) table.old }
    ensures cells { table.new ≡ pass (program_of ready.now.program.now) (samples_of (handed_in ready.now.handed)) table.old }
{
    let mut words = [0u64; WORDS];
    ready.fill(&mut words);
    passes::pass(
        &words,
        &ready.traces(),
        &ready.cells.functions,
        table,
        ready.lengths,
        &ready.outline.starts,
        ready.outline.functions,
    )
}
