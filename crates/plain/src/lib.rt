// A scope copied out of its graph, once, into plain arrays.
#![tactic(auto)]

pub mod called;
pub mod copy;
pub mod edge_value;
mod listing;
pub mod plain_scope;
pub mod range;
