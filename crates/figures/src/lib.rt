// Window figures over the rows of one key: what a figure is, the twelve figures that a letter names, sets of figures, and the results of a key whose rows come little by little.
#![tactic(auto)]

pub mod carry;
pub mod cases;
pub mod catching;
pub mod cells;
mod extremes;
pub mod figure;
pub mod letters;
pub mod results;
pub mod rows;
pub mod set;
