// The fixed tables of a run: waiting rows, kept rows and held keys, linked by number.
#![tactic(auto)]

pub mod batch;
mod held;
mod kept;
mod numbers;
pub mod rows;
pub mod table;
pub mod tables;
