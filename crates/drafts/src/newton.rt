// Interpolation of sixteen polynomials at once, by Newton's form.
ghost use Rattle.std.specs.Prelude.{◌<◌};
ghost use Rattle.field.specs.Prime.{Inverses};
ghost use Rattle.field.specs.Row.{Row};
ghost use Rattle.polynomial.specs.Powers.{Rows};

use field::modulus::Modulus;

// Meant: Newton's coefficients of sixteen polynomials at once, from their values at the first d + 1 points.
pub fn divide_differences(
    f: &mut [[u16; 16]; 16],
    x: [u16; 16],
    d: usize,
    modulus: Modulus,
    inverses: &[u16; 251],
)
    requires { Inverses modulus.p inverses.now × Rows modulus.p f.old × Row modulus.p x × (d < 16) }
    ensures { Rows modulus.p f.new }
{
    for k in 0..d {
        let base = f[k];
        for j in k + 1..d + 1 {
            let difference = modulus.reduce(x[j] + (modulus.p - x[k]));
            let c = modulus.reduce(inverses[usize::from(difference)]);
            f[j] = modulus.scale(c, modulus.subtract(f[j], base));
        }
    }
}

// Meant: their coefficients by powers, from Newton's. From the highest on each is freed of a multiple of the one above it, as
// just made, so that the compiler doesn't work across rows.
pub fn change_to_powers(f: &mut [[u16; 16]; 16], x: [u16; 16], d: usize, modulus: Modulus)
    requires { Rows modulus.p f.old × Row modulus.p x × (d < 16) }
    ensures { Rows modulus.p f.new }
{
    for i in 0..d {
        let mut high = f[d];
        for j in (i..d).rev() {
            let next = modulus.add_multiple(f[j], modulus.p - x[j - i], high);
            f[j] = next;
            high = next;
        }
    }
}
