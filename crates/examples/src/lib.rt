// Worked graphs, with what is claimed of each and proved of the definitions of runs, costs and
// bounds.
#![tactic(auto)]

pub mod claims;
pub mod laws;
