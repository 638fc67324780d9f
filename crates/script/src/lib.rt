// The text of scripts: the fields of a case, and what came out, printed in the same form. For the program `cases`;
// its functions answer for all text.
#![tactic(auto)]

pub mod fields;
pub mod printing;
pub mod words;
