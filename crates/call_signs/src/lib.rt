// Call signs as a key kind of the journal: one to eight letters of 37.
#![tactic(auto)]

pub mod letter;
pub mod sign;
