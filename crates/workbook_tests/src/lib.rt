// Tests of the calls on a workbook, as tables.
#![tactic(auto)]

#[cfg(test)]
mod alone;
#[cfg(test)]
mod limits;
#[cfg(test)]
mod pairs;
#[cfg(test)]
mod plays;
#[cfg(test)]
mod settings;
#[cfg(test)]
mod step;
#[cfg(test)]
mod texts;
