// The bounded window stream: a run over fixed tables, as far as it goes. The law over every list of its calls is stated in specs/, and no contract carries it yet.
#![tactic(auto)]

mod rounds;
pub mod run;
