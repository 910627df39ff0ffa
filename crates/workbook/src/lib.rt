// A workbook: a scope graph that is built up and changed call by call, and keeps the rules of graphs throughout.
#![tactic(auto)]

pub mod book;
mod change;
pub mod edit;
mod edit_text;
mod sheet;
mod tables;
