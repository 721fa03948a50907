// The polynomial through k + 1 cells, by Newton's form: a sum of multiples, the slopes, of the products of X - z over the points
// z of the cells taken before, the nodes. It is kept by its values less the symbols: where these are 0 the symbol is right.
ghost use Rattle.std.specs.Prelude.{ℕ, suc, ◌<◌};
ghost use Rattle.field.specs.Prime.{Inverses};
ghost use Rattle.field.specs.Row.{Row};
ghost use Rattle.welch_berlekamp.specs.Newton.{Enough, Cells, Fits, Coefficients};

use crate::interpolation::ratio;
use crate::order;
use field::modulus::Modulus;

// The rest is the polynomial less the symbols, the product that of X - z over all cells taken; `entered` is 1 at these, else 0,
// and the keys are those of the other cells.
#[derive(Clone, Copy)]
pub struct Newton {
    pub rest: [u16; 16],
    pub product: [u16; 16],
    pub slopes: [u16; 16],
    pub nodes: [u16; 16],
    pub entered: [u16; 16],
    pub keys: [u32; 16],
}

// The polynomial of degree at most k through the k + 1 cells of the least keys. Which cell is next depends on no number of this
// one, and is worked out first: so the processor does both at a time.
pub fn through(
    keys: [u32; 16],
    x: [u16; 16],
    y: [u16; 16],
    k: usize,
    modulus: Modulus,
    inverses: &[u16; 251],
) -> Newton
    requires { Inverses modulus.p inverses.now × Row modulus.p x × Row modulus.p y × Cells modulus.p k x keys }
    ensures { (n : ℕ) → Enough modulus.p n k x keys → Fits modulus.p n k x y keys (suc k) result }
{
    let p = modulus.p;
    let mut left = keys;
    let mut entered = [0u16; 16];
    let mut slopes = [0u16; 16];
    let mut nodes = [0u16; 16];
    let mut product = [1u16; 16];
    let mut rest = modulus.scale(p - 1, y);
    for i in 0..k + 1 {
        let key = order::least(left);
        let others = order::without(left, key);
        left = others;
        let r = (key % 16) as usize;
        let z = x[r];
        let c = ratio(rest[r], product[r], modulus, inverses);
        let w = modulus.shift(x, p - z);
        modulus.advance(&mut rest, c, &mut product, w);
        slopes[i] = c;
        nodes[i] = z;
        entered[r] = 1;
    }
    Newton {
        rest,
        product,
        slopes,
        nodes,
        entered,
        keys: left,
    }
}

// The coefficients, by Horner's rule: the last slope times X less the last node, plus the slope before, and so on. The powers
// move up in place, a number at a time: a row that is shifted would have to be stored before it can be loaded.
pub fn coefficients(slopes: [u16; 16], nodes: [u16; 16], k: usize, modulus: Modulus) -> [u16; 16]
    requires { Row modulus.p slopes × Row modulus.p nodes × (k < 16) }
    ensures { Coefficients modulus.p k slopes nodes result }
{
    let mut a = [0u16; 16];
    for i in (0..k + 1).rev() {
        a[i] = slopes[i];
        let c = modulus.p - nodes[i];
        for j in i..k {
            a[j] = modulus.reduce(a[j] + c * a[j + 1]);
        }
    }
    a
}
