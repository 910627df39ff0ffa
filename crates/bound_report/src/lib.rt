// What the program says of an image: its bounds, as values and as text.
#![tactic(auto)]

pub mod bound_image;
pub mod bounds;
pub mod text;
mod worked;
