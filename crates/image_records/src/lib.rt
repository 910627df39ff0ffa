// Images of graphs, made of their records.
#![tactic(auto)]

pub mod build;
pub mod record;
