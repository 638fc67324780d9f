// What following the calls of a rule from main comes to.
#![tactic(auto)]

use semantics::Decision;

// A decision, and how many calls were made.
#[derive(Clone, Copy)]
pub struct Followed {
    pub decision: Decision,
    pub calls: u32,
}
