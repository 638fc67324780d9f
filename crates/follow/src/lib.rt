// The verdict of a rule program that only loops, by following its calls from main: with no table.
#![tactic(auto)]

mod decide;
mod run;

ghost use Rattle.std.specs.Prelude.{◌≡◌};
ghost use Rattle.refusal.specs.{answer_if};
ghost use Rattle.semantics.specs.Handed.{samples_of};
ghost use Rattle.rule.specs.Reading.{program_of};
ghost use Rattle.prepare.specs.Checks.{handed_in};
ghost use Rattle.chains.specs.Following.{followed, followed_values};
ghost use Rattle.follow.specs.Follow.{follow_check, following_of, following_answer, FollowDemand, AsTable, ToldDecision};

use chains::Followed;
use prepare::Handed;
use refusal::Refusal;

// Follows a program on the traces that it is handed, which say its sort.
pub fn follow(program: &[u8], handed: Handed) -> Result<Followed, Refusal>
    ensures answer { result ≡ following_of program.now (handed_in handed.entry) }
    ensures numbers { following_answer result ≡ answer_if (follow_check program.now (handed_in handed.entry)) (followed_values (followed handed.entry.sort (program_of program.now) (samples_of (handed_in handed.entry)))) }
    ensures owed { FollowDemand program.now (handed_in handed.entry) (λ q. result ≡ Ok q) }
    ensures table { AsTable program.now (handed_in handed.entry) (ToldDecision result) }
{
    let outline = rule::check_sorts(program, Some(handed.sort))?;
    if !loops::only_loops(program, &outline) {
        return Err(Refusal::CallElsewhere);
    }
    let ready = prepare::places(program, outline, handed, semantics::MOST_CELLS as usize)?;
    Ok(decide::decide(&ready))
}
