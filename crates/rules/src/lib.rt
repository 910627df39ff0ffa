// The rules of scope graphs, for everything that can be asked as one.
#![tactic(auto)]

mod calls;
mod finding;
mod item;
pub mod judge;
pub mod limits;
pub mod order;
mod scope;
