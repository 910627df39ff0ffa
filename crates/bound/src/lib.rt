// The bound of one scope, and the run that attains it.
#![tactic(auto)]

mod choice;
mod costs;
mod progress;
mod range;
mod scope_search;
pub mod solution;
pub mod solve;
mod turn;
