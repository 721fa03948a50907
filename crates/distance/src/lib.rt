// The weighted distance of a word from symbols with doubts.
#![tactic(auto)]

pub mod word;
