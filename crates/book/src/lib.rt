// The book of a run, and the law over every list of calls, on the lists that a run holds.
#![tactic(auto)]

pub mod cases;
pub mod law;
