// The strip decoder: Reed-Solomon codes with doubts.
#![tactic(auto)]

pub mod axis;
pub mod decoder;
