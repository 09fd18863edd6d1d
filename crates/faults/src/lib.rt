// What a refusal says: its layer, its number and its place.
#![tactic(auto)]

pub mod run;
pub mod settings;
pub mod told;
