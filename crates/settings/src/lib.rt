// Settings of a run: as given, by numbers and letters, and checked.
#![tactic(auto)]

pub mod check;
pub mod checked;
mod given;
pub mod raw;
pub mod search;
