// Tests of opening images and asking them, as tables.
#![tactic(auto)]

#[cfg(test)]
mod opening;
#[cfg(test)]
mod questions;
