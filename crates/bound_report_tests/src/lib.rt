// Tests of what is said of images.
#![tactic(auto)]

#[cfg(test)]
mod worked;
