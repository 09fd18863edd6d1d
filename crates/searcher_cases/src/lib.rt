// Worked cases of the searchers, with keys whose hashes collide and whose equal keys are not identical.
#![tactic(auto)]

#[cfg(test)]
mod mini;
#[cfg(test)]
mod tests;
