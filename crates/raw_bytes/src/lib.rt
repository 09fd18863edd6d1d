// Bytes: little-endian numbers read from a slice, and the writer of lines into one.
#![tactic(auto)]

pub mod numbers;
pub mod writer;
