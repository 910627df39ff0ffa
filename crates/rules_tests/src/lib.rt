// Tests of the rules and of the analysis on images.
#![tactic(auto)]

#[cfg(test)]
mod alone;
#[cfg(test)]
mod bounds;
#[cfg(test)]
mod images;
#[cfg(test)]
mod limits;
#[cfg(test)]
mod orders;
#[cfg(test)]
mod pairs;
