// Rows of sixteen numbers modulo p, for what needs no reciprocal of it: any p of at most 251 will do. As with a `Modulus`, a row
// goes in by value and comes back, with all its sixteen places.
ghost use Rattle.std.specs.Prelude.{◌≡◌, ◌+◌, ◌-◌, ◌%◌, ◌<◌, ◌≤◌};
ghost use Rattle.bounded.specs.Bounded.{at};
ghost use Rattle.field.specs.Row.{row, Row};

use std::array;

// t modulo p, for t below 2 p.
fn less(t: u16, p: u16) -> u16
    requires { t < p + p }
    ensures { (result ≡ t % p) × (result < p) }
{
    if t >= p {
        return t - p;
    }
    t
}

// a + c in each place. A c of p - v subtracts v.
pub fn shift(a: [u16; 16], c: u16, p: u16) -> [u16; 16]
    requires { Row p a × (c ≤ p) × (p ≤ 251) }
    ensures { result ≡ row (λ j. (at a j + c) % p) }
{
    array::from_fn(|j| less(a[j] + c, p))
}

// a - b.
pub fn subtract(a: [u16; 16], b: [u16; 16], p: u16) -> [u16; 16]
    requires { Row p a × Row p b × (p ≤ 251) }
    ensures { result ≡ row (λ j. (at a j + (p - at b j)) % p) }
{
    array::from_fn(|j| less(a[j] + (p - b[j]), p))
}
