// Searchers: the order of a batch, its groups, which keys have ended and how many rows leave, for each of three modes.
#![tactic(auto)]

pub mod ends;
pub mod groups;
mod index;
mod leaving;
pub mod modes;
mod numbers;
mod order;
pub mod rows;
pub mod search;
