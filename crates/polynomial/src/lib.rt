// Polynomials modulo a prime: values at sixteen points at once, in one variable and, of a flat record, in two;
// and how far records are apart.
#![tactic(auto)]

pub mod bivariate;
pub mod evaluation;
pub mod limit;

ghost use Rattle.polynomial.specs.Fits.{Fits};

use field::modulus::Modulus;

// The grid of a mark: a row points x and b column points y modulo p, the total degree d and the full doubt, that of a cell of
// which nothing is known. X takes the row point, Y the column point.
#[derive(Clone, Copy)]
pub struct Grid {
    pub modulus: Modulus,
    pub x: [u16; 16],
    pub a: usize,
    pub y: [u16; 16],
    pub b: usize,
    pub d: usize,
    pub full: u32,
    ghost fit: { Fits modulus.p x a y b d full },
}
