// The mark decoder: Reed-Muller codes on a grid of points, with doubts, line by line.
#![tactic(auto)]

pub mod decoder;
pub mod message;
pub mod solver;
