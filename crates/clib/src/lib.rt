// The calculator for programs in C (include/naglveth.h).
#![tactic(auto)]

pub mod analyze_image;
pub mod exported;
