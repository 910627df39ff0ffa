// Scope graphs: the plain types, what a graph holder answers, what a cost measure is, and every
// definition that the contracts of the other crates rest on (in specs/).
#![tactic(auto)]

pub mod cost;
pub mod graph;
pub mod lists;
pub mod refusal;
pub mod scope_graph;
pub mod trail;
