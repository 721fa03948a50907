// Drafts of a mark's columns: made by interpolation, without looking for errors. No function here decides a result, each only how
// long reading takes, since a draft is tried like any record (crate `grid`), and what is measured decides. So the contracts say
// no more than that the numbers are residues and that columns already found stay (`Redrawn`); "meant" is what they don't say.
#![tactic(auto)]

pub mod columns;
pub mod newton;
