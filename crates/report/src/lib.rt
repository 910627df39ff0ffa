// What the program says of an image, as text.
#![tactic(auto)]

pub mod listing;
mod scope_line;
