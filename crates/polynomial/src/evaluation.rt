// Values of a polynomial in one variable at all points at once. The powers of the points are made once for each axis.
ghost use Rattle.std.specs.Prelude.{◌≡◌, List, ℕ, suc, ◌+◌, ◌*◌, ◌%◌, ◌<◌};
ghost use Rattle.bounded.specs.Bounded.{at};
ghost use Rattle.field.specs.Row.{row, Row};
ghost use Rattle.polynomial.specs.Eval.{eval};
ghost use Rattle.polynomial.specs.Powers.{Rows, Powers};

use field::modulus::Modulus;

// Row t gets the powers t of the points x, t from 0 to d. Each is the product of two of about half the power, so that few
// products wait for one another.
pub fn set_powers(rows: &mut [[u16; 16]; 16], x: [u16; 16], d: usize, modulus: Modulus)
    requires { Row modulus.p x × (d < 16) × Rows modulus.p rows.old }
    ensures { Rows modulus.p rows.new × Powers modulus.p x d rows.new }
{
    rows[0] = [1; 16];
    rows[1] = x;
    for t in 2..d + 1 {
        let half = t / 2;
        rows[t] = modulus.multiply(rows[half], rows[t - half]);
    }
}

// The same, as a table of its own.
pub fn powers(x: [u16; 16], d: usize, modulus: Modulus) -> [[u16; 16]; 16]
    requires { Row modulus.p x × (d < 16) }
    ensures { Rows modulus.p result × Powers modulus.p x d result }
{
    let mut rows = [[0; 16]; 16];
    set_powers(&mut rows, x, d, modulus);
    rows
}

// c v added to the sums. The bounds keep each of them within 32 bits.
pub fn add_product(sum: &mut [u32; 16], c: u16, v: &[u16; 16])
    requires { Row 16777216 sum.old × (c < 256) × Row 256 v.now }
    ensures { sum.new ≡ row (λ j. at sum.old j + c * at v.now j) }
{
    for j in 0..16 {
        sum[j] += u32::from(c) * u32::from(v[j]);
    }
}

// The values at the points, whose powers are given, of the polynomial with the k + 1 coefficients w. The first term is its
// coefficient. The sums are reduced once, at the end: sixteen terms, each at most a product of two numbers below 251, are less
// than 2^20.
// The coefficients and the rows go side by side: over an index the compiler would gather each place from four rows, at twice the
// time.
pub fn values(powers: &[[u16; 16]; 16], k: usize, w: [u16; 16], modulus: Modulus) -> [u16; 16]
    requires { Rows modulus.p powers.now × Row modulus.p w × (k < 16) }
    ensures { Row modulus.p result
        × ((x : List ℕ) → Powers modulus.p x k powers.now →
        result ≡ row (λ j. eval (suc k) (at w) (at x j) % modulus.p)) }
{
    let mut sum = [u32::from(w[0]); 16];
    for (c, v) in w[1..=k].iter().zip(&powers[1..]) {
        add_product(&mut sum, *c, v);
    }
    modulus.fold_row(sum)
}
