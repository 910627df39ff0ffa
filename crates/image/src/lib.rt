// The binary image of a scope graph, opened and asked in place: nothing of it is copied.
#![tactic(auto)]

pub mod answers;
pub mod image;
pub mod open;
mod part;
mod read;
mod record;
mod records;
mod seek;
