// Tests of the search on small graphs, as tables.
#![tactic(auto)]

#[cfg(test)]
mod limits;
#[cfg(test)]
mod passes;
#[cfg(test)]
mod small;
