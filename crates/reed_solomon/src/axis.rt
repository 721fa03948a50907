// The axis of a strip: n points x, the degree k of its polynomials and the full doubt.
use field::modulus::Modulus;

#[derive(Clone, Copy)]
pub struct Axis {
    pub modulus: Modulus,
    pub x: [u16; 16],
    pub n: usize,
    pub k: usize,
    pub full: u32,
}
