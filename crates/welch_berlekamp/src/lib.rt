// What the decoder of strips works with (Welch and Berlekamp): rational interpolation by values, cell by cell; Newton's form; and
// the order in which cells enter.
#![tactic(auto)]

pub mod interpolation;
pub mod newton;
pub mod order;
