// The verdict of a rule program on its trace or traces, in a table that the caller lends.
#![tactic(auto)]

mod decide;

ghost use Rattle.std.specs.Prelude.{◌≡◌, [], ◌∷◌, length, ◌≤◌};
ghost use Rattle.refusal.specs.{answer_if};
ghost use Rattle.semantics.specs.Handed.{samples_of};
ghost use Rattle.semantics.specs.Visits.{pass_stores};
ghost use Rattle.semantics.specs.Verdicts.{verdict_of, verdict_values};
ghost use Rattle.rule.specs.Reading.{program_of};
ghost use Rattle.prepare.specs.Checks.{handed_in, evaluate_check};
ghost use Rattle.evaluate.specs.Evaluate.{evaluation, evaluated_answer, table_evaluated, Demand3, pass_made, made_answer, table_passed};

use prepare::Handed;
use refusal::Refusal;
use semantics::Verdict;

// What evaluating in so many cells would be refused for, with nothing evaluated.
pub fn check(program: &[u8], handed: Handed, lent: usize) -> Result<(), Refusal>
    ensures { result ≡ evaluate_check program.now (handed_in handed.entry) lent }
{
    prepare::prepare(program, handed, lent)?;
    Ok(())
}

// Evaluates a program on the traces that it is handed, which say its sort. The table takes the cells; those beyond them keep
// their content, and a refusal changes none.
pub fn evaluate(program: &[u8], handed: Handed, table: &mut [u16]) -> Result<Verdict, Refusal>
    ensures answer { result ≡ evaluation program.now (handed_in handed.entry) (length table.old) }
    ensures numbers { evaluated_answer result ≡ answer_if (evaluate_check program.now (handed_in handed.entry) (length table.old)) (verdict_values (verdict_of (program_of program.now) (samples_of (handed_in handed.entry)))) }
    ensures cells { table.new ≡ table_evaluated program.now (handed_in handed.entry) table.old }
    ensures decides { Demand3 program.now (handed_in handed.entry) (length table.old) (λ v. result ≡ Ok v) table.new }
{
    let ready = prepare::prepare(program, handed, table.len())?;
    Ok(decide::decide(&ready, table))
}

// One pass over a table with any content: how many outcomes it stored. A cell that holds no outcome of its function's kind counts
// as undecided. A caller runs it on part of a table by lending that part.
pub fn pass(program: &[u8], handed: Handed, table: &mut [u16]) -> Result<usize, Refusal>
    ensures answer { result ≡ pass_made program.now (handed_in handed.entry) table.old }
    ensures numbers { made_answer result ≡ answer_if (evaluate_check program.now (handed_in handed.entry) (length table.old)) (pass_stores (program_of program.now) (samples_of (handed_in handed.entry)) table.old ∷ []) }
    ensures cells { table.new ≡ table_passed program.now (handed_in handed.entry) table.old }
{
    let ready = prepare::prepare(program, handed, table.len())?;
    Ok(decide::pass_once(&ready, table))
}
