// The worst-case analysis of a graph.
#![tactic(auto)]

mod all;
pub mod analyze;
mod settle;
