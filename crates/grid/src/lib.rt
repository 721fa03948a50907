// The grid of a mark: its lines are read as strips, columns are subtracted from it, and what is left is measured.
#![tactic(auto)]

pub mod lines;
pub mod remainder;
pub mod trial;
