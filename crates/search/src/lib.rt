// The costliest pass through a scope, within passes that have the same facts in force.
// An edge is known here by its start, its target and its value alone.
#![tactic(auto)]

pub mod costlier;
pub mod costliest;
pub mod ending;
mod exits;
pub mod flow;
mod follow;
pub mod found;
pub mod lent;
pub mod power;
pub mod prepare;
mod restriction;
mod step;
mod table;
mod usable;
pub mod values;
pub mod way;
