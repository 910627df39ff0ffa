// A list of at most N items, in an array: nothing is allocated.
#![tactic(auto)]

pub mod row;
