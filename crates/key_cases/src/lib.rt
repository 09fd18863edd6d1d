// Keys, against values worked out elsewhere; and a key kind of our own whose equal keys are not
// identical, which the code above keys must take as it is.
#![tactic(auto)]

pub mod pier;
#[cfg(test)]
mod tests;
