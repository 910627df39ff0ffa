// Any list of calls on a workbook, from its making.
#![tactic(auto)]

mod answering;
pub mod call;
pub mod play;
