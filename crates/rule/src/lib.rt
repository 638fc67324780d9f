// Program bytes: which are accepted, what evaluating needs of them, and which number the others get.
// The check answers for all bytes, and its work is proportional to them.
#![tactic(auto)]

mod expression;
mod functions;

ghost use Rattle.std.specs.Prelude.{◌≡◌, None};
ghost use Rattle.refusal.specs.{told};
ghost use Rattle.rule.specs.Wanted.{takes};
ghost use Rattle.rule.specs.Reading.{program_check};
ghost use Rattle.rule.specs.Outline.{judged};

pub use expression::at_most_four;
use refusal::Refusal;
use semantics::Sort;

// Where the functions of a program stand: for each its number of parameters, its kinds byte and its guard byte, and the
// places of its body's first byte and of the byte after it.
#[derive(Clone, Copy)]
pub struct Outline {
    pub functions: u8,
    pub params: [u8; 32],
    pub kinds: [u8; 32],
    pub guards: [u8; 32],
    pub starts: [u16; 32],
    pub ends: [u16; 32],
}

// Checks program bytes of either sort, and answers where their functions stand.
pub fn check_program(program: &[u8]) -> Result<Outline, Refusal>
    ensures check { told result ≡ program_check None program.now }
    ensures outline { result ≡ judged None program.now }
{
    check_sorts(program, None)
}

// Checks program bytes of the sort that is wanted, if one is; those of another meet 6.
pub fn check_sorts(program: &[u8], wanted: Option<Sort>) -> Result<Outline, Refusal>
    ensures check { told result ≡ program_check wanted program.now }
    ensures outline { result ≡ judged wanted program.now }
{
    let len = program.len();
    if len == 0 || syntax::MOST_BYTES < len {
        return Err(Refusal::ProgramLength);
    }
    let sort = syntax::sort_of(program[0]);
    let count = syntax::count_of(program[0]);
    if count == 0 || syntax::MOST_FUNCTIONS < count || !taken(wanted, sort) {
        return Err(Refusal::FunctionCount);
    }
    functions::check_functions(program, sort, count)
}

// Whether programs of a sort are taken.
fn taken(wanted: Option<Sort>, sort: Sort) -> bool
    ensures { result ≡ takes wanted sort }
{
    match wanted {
        None => true,
        Some(only) => only == sort,
    }
}
