// The cost measures: cycles and stack.
#![tactic(auto)]

pub mod cycles;
pub mod cycles_cost;
pub mod stack;
pub mod stack_cost;
