// Keys of berth requests: what it takes to be a key, the two kinds that are numbers, and the search
// among held keys.
#![tactic(auto)]

pub mod berth;
pub mod key;
pub mod route;
pub mod search;
