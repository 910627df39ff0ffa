// Calls on a workbook and their answers as text.
#![tactic(auto)]

pub mod answer_text;
pub mod cost_text;
mod parse;
pub mod read_call;
