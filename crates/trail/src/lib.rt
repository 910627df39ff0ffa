// The groups of passes of a run, and the sections of the trail table that show them.
#![tactic(auto)]

pub mod groups;
mod lines;
pub mod write;
