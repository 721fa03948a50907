// Numbers modulo a prime p of at most 251: single ones, inverses, and rows of sixteen, also from lent bytes.
#![tactic(auto)]

pub mod bytes;
pub mod inverse;
pub mod modulus;
pub mod rows;
pub mod scalar;
