// What a rule is over and what it comes to: contacts, sorts of programs and outcomes as enums, the verdict that holds an outcome, and
// the numbers that stand for them in a cell of the table and in a record.
#![tactic(auto)]

ghost use Rattle.std.specs.Prelude.{◌≡◌};
ghost use Rattle.semantics.specs.Language.{allows};
ghost use Rattle.semantics.specs.Cells.{code_of};
ghost use Rattle.semantics.specs.Verdicts.{verdict_number, main_decision};

// The most cells of a table.
pub const MOST_CELLS: u64 = 16777216;

// The contacts of a press: that of the ram, and that of the guard.
#[derive(Clone, Copy, PartialEq, Eq)]
pub enum Contact {
    Ram,
    Guard,
}

// The sorts of programs: over the ram's contact, and over both.
#[derive(Clone, Copy, PartialEq, Eq)]
pub enum Sort {
    One,
    Two,
}

// The kinds: Bool, and a list of a contact's samples.
#[derive(Clone, Copy, PartialEq, Eq)]
pub enum Kind {
    Truth,
    List(Contact),
}

// What a place of an expression demands: one kind, or a list of either contact.
#[derive(Clone, Copy, PartialEq, Eq)]
pub enum Demand {
    Only(Kind),
    AnyList,
}

impl Demand {
    // Whether an expression of a kind may stand in the place.
    pub fn allows(self, kind: Kind) -> bool
        ensures { result ≡ allows self kind }
    {
        match self {
            Demand::Only(wanted) => wanted == kind,
            Demand::AnyList => kind != Kind::Truth,
        }
    }
}

// 'head of empty' and 'tail of empty'.
#[derive(Clone, Copy, PartialEq, Eq)]
pub enum Error {
    Head,
    Tail,
}

// An outcome: a Bool, a suffix of a contact's trace by its length, or an error with its sort.
#[derive(Clone, Copy, PartialEq, Eq)]
pub enum Outcome {
    Truth(bool),
    Suffix(Contact, u16),
    Failed(Error),
}

// What evaluating decides: an outcome, or that there is none. It is no Option, since 'forever' is an answer and not the want of one.
#[derive(Clone, Copy, PartialEq, Eq)]
pub enum Decision {
    Forever,
    Decided(Outcome),
}

// A verdict: the decision, and the number of the first pass that changed nothing.
#[derive(Clone, Copy, PartialEq, Eq)]
pub struct Verdict {
    pub decision: Decision,
    pub passes: u32,
}

// The number that stands for an outcome in a cell. It is no From, which would not say that: at work another number stands for a
// suffix of the guard trace.
pub fn code(outcome: Outcome) -> u32
    ensures { result ≡ code_of outcome }
{
    match outcome {
        Outcome::Truth(false) => 1,
        Outcome::Truth(true) => 2,
        Outcome::Failed(Error::Head) => 3,
        Outcome::Failed(Error::Tail) => 4,
        Outcome::Suffix(_, length) => 5 + u32::from(length),
    }
}

// The number of a verdict in a record, named as `code` is.
pub fn verdict_number(decision: Decision) -> u32
    ensures { result ≡ verdict_number decision }
{
    match decision {
        Decision::Forever => 0,
        Decision::Decided(outcome) => code(outcome),
    }
}

// What main's cell decides when the passes have ended.
pub fn main_decision(cell: u16) -> Decision
    ensures { result ≡ main_decision cell }
{
    match cell {
        1 => Decision::Decided(Outcome::Truth(false)),
        2 => Decision::Decided(Outcome::Truth(true)),
        3 => Decision::Decided(Outcome::Failed(Error::Head)),
        4 => Decision::Decided(Outcome::Failed(Error::Tail)),
        _ => Decision::Forever,
    }
}
