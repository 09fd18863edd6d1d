// The figures' results, key by key, as they come due.
#![tactic(auto)]

mod catching;
pub mod compute;
mod gathering;
pub mod progress;
pub mod theory;
mod writing;
