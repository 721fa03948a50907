// A modulus p of at most 251 with its reciprocal, and rows of sixteen numbers modulo it. A row goes in by value and comes back,
// always with all its sixteen places: so the loops are vectorised. Lanes that a caller does not use hold any number below p.
//
// Numbers are u16: a sum of a residue and a product is at most 250 + 251 * 250 = 63,000. Longer sums of products are u32, reduced
// once by `fold_row`.
ghost use Rattle.std.specs.Prelude.{◌≡◌, ℕ, ◌+◌, ◌*◌, ◌-◌, ◌%◌, ◌<◌, ◌≤◌};
ghost use Rattle.bounded.specs.Bounded.{at};
ghost use Rattle.field.specs.Row.{row, Row, Reciprocal};

use crate::rows;
use std::array;

// p, and m = 65536 / p, by which a product is divided by p.
#[derive(Clone, Copy)]
pub struct Modulus {
    pub p: u16,
    pub m: u16,
    ghost reciprocal: { Reciprocal p m },
}

impl Modulus {
    // The modulus p.
    pub fn new(p: u16) -> Modulus
        requires { (2 ≤ p) × (p ≤ 251) }
        ensures { result.p ≡ p }
    {
        Modulus {
            p,
            m: (65536 / u32::from(p)) as u16,
        }
    }

    // t modulo p. The quotient by the reciprocal is right or 1 too small.
    pub fn reduce(self, t: u16) -> u16
        ensures { (result ≡ t % self.p) × (result < self.p) }
    {
        let q = (u32::from(t) * u32::from(self.m) / 65536) as u16;
        let r = t - q * self.p;
        if r >= self.p {
            return r - self.p;
        }
        r
    }

    // a + c b. A c of p - v subtracts v b.
    pub fn add_multiple(self, a: [u16; 16], c: u16, b: [u16; 16]) -> [u16; 16]
        requires { Row self.p a × Row self.p b × (c ≤ self.p) }
        ensures { result ≡ row (λ j. (at a j + c * at b j) % self.p) }
    {
        array::from_fn(|j| self.reduce(a[j] + c * b[j]))
    }

    // a b, place by place.
    pub fn multiply(self, a: [u16; 16], b: [u16; 16]) -> [u16; 16]
        requires { Row self.p a × Row self.p b }
        ensures { result ≡ row (λ j. at a j * at b j % self.p) }
    {
        array::from_fn(|j| self.reduce(a[j] * b[j]))
    }

    // The step of an interpolation by values: a + c b in the place of a, and b w in that of b.
    pub fn advance(self, a: &mut [u16; 16], c: u16, b: &mut [u16; 16], w: [u16; 16])
        requires { Row self.p a.old × Row self.p b.old × Row self.p w × (c ≤ self.p) }
        ensures { (a.new ≡ row (λ j. (at a.old j + c * at b.old j) % self.p))
            × (b.new ≡ row (λ j. at b.old j * at w j % self.p)) }
    {
        for j in 0..16 {
            let v = b[j];
            a[j] = self.reduce(a[j] + c * v);
            b[j] = self.reduce(v * w[j]);
        }
    }

    // c a.
    pub fn scale(self, c: u16, a: [u16; 16]) -> [u16; 16]
        requires { Row self.p a × (c ≤ self.p) }
        ensures { result ≡ row (λ j. c * at a j % self.p) }
    {
        array::from_fn(|j| self.reduce(c * a[j]))
    }

    // a + c in each place. A c of p - v subtracts v.
    pub fn shift(self, a: [u16; 16], c: u16) -> [u16; 16]
        requires { Row self.p a × (c ≤ self.p) }
        ensures { result ≡ row (λ j. (at a j + c) % self.p) }
    {
        rows::shift(a, c, self.p)
    }

    // a - b.
    pub fn subtract(self, a: [u16; 16], b: [u16; 16]) -> [u16; 16]
        requires { Row self.p a × Row self.p b }
        ensures { result ≡ row (λ j. (at a j + (self.p - at b j)) % self.p) }
    {
        rows::subtract(a, b, self.p)
    }

    // t modulo p, with c = 256 modulo p: what stands above the low eight bits counts c for each 256. Below 2^24 = 16777216 that
    // is at most 65535, and fits 16 bits.
    fn fold(self, t: u32, c: u16) -> u16
        requires { (t < 16777216) × (c ≡ 256 % self.p) }
        ensures { result ≡ t % self.p }
    {
        let high = self.reduce((t / 256) as u16);
        self.reduce(high * c + (t % 256) as u16)
    }

    // t modulo p in each place, for sums of up to 256 products of two bytes: these are below 2^24 = 16777216.
    pub fn fold_row(self, t: [u32; 16]) -> [u16; 16]
        requires { (j : ℕ) → j < 16 → at t j < 16777216 }
        ensures { result ≡ row (λ j. at t j % self.p) }
    {
        let c = 256 % self.p;
        array::from_fn(|j| self.fold(t[j], c))
    }
}
