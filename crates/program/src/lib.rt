// A program that says something of an image: its arguments, its input and its exit status.
#![tactic(auto)]

pub mod run;
mod sample;
