// Incremental rational interpolation by values (Welch and Berlekamp, in Koetter's form): cells enter one by one, and nothing is
// computed again.
ghost use Rattle.std.specs.Prelude.{◌+◌, ◌<◌, ◌≤◌};
ghost use Rattle.field.specs.Prime.{Inverses};
ghost use Rattle.field.specs.Row.{Row};
ghost use Rattle.welch_berlekamp.specs.Pairs.{Ratio, Formed, Shaped, Lifts, Enters};

use field::modulus::Modulus;

// A pair stands for two polynomials Q and E: e holds E at the points, d holds Q - y E, y being the symbols.
#[derive(Clone, Copy)]
pub struct Pair {
    pub d: [u16; 16],
    pub e: [u16; 16],
    pub degree: usize,
}

// Two pairs. As many cells have entered as their degrees make together, and `entered` is 1 at these, else 0.
#[derive(Clone, Copy)]
pub struct Pairs {
    pub first: Pair,
    pub second: Pair,
    pub entered: [u16; 16],
}

// - a / b.
pub fn ratio(a: u16, b: u16, modulus: Modulus, inverses: &[u16; 251]) -> u16
    requires { Inverses modulus.p inverses.now × (a < modulus.p) × (0 < b) × (b < modulus.p) }
    ensures { Ratio modulus.p a b result }
{
    modulus.reduce((modulus.p - a) * inverses[usize::from(b)])
}

// The pair that is used at the cell r, of the lower degree: where it is 0 there the other pair is multiplied by the differences w
// of all points to the cell's own; else the other is freed of its value there by a multiple of it, and it is multiplied itself.
// The rows are changed in place. It is laid into its two calls, since a decoder spends much of its time here.
#[inline(always)]
fn lift(
    used: &mut Pair,
    other: &mut Pair,
    w: [u16; 16],
    r: usize,
    modulus: Modulus,
    inverses: &[u16; 251],
)
    requires { Inverses modulus.p inverses.now × Formed modulus.p used.old × Formed modulus.p other.old × Row modulus.p w
        × (r < 16) × (used.old.degree ≤ 16) × (other.old.degree ≤ 16) }
    ensures { Lifts modulus.p w r used.old other.old used.new other.new }
{
    let v = used.d[r];
    if v == 0 {
        other.d = modulus.multiply(other.d, w);
        other.e = modulus.multiply(other.e, w);
        other.degree += 1;
        return;
    }
    let c = ratio(other.d[r], v, modulus, inverses);
    modulus.advance(&mut other.d, c, &mut used.d, w);
    modulus.advance(&mut other.e, c, &mut used.e, w);
    used.degree += 1;
}

impl Pairs {
    // The cell r enters. The pair of the lower degree is used, the second pair's counting k more.
    pub fn enter(
        &mut self,
        x: [u16; 16],
        r: usize,
        k: usize,
        modulus: Modulus,
        inverses: &[u16; 251],
    )
        requires { Inverses modulus.p inverses.now × Shaped modulus.p self.old × Row modulus.p x × (r < 16) × (k ≤ 16)
            × (self.old.first.degree + self.old.second.degree ≤ 16) }
        ensures { Enters modulus.p k x r self.old self.new }
    {
        self.entered[r] = 1;
        let w = modulus.shift(x, modulus.p - x[r]);
        if self.first.degree <= self.second.degree + k {
            lift(&mut self.first, &mut self.second, w, r, modulus, inverses);
        } else {
            lift(&mut self.second, &mut self.first, w, r, modulus, inverses);
        }
    }
}
