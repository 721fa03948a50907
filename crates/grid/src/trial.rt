// A draft, tried: what its columns leave of the symbols, measured, decides whether it is the answer.
ghost use Rattle.std.specs.Prelude.{List, ℕ, suc, ◌≤◌};
ghost use Rattle.polynomial.specs.Powers.{Rows, Powers};
ghost use Rattle.grid.specs.Axes.{DoubtRows, ColumnPowers};
ghost use Rattle.grid.specs.Drawn.{Drawn, Completed};

use crate::remainder;
use polynomial::{Grid, evaluation, limit};

// Subtracts the columns of Y^0 to Y^(t - 1), the highest first. xs and ys have the powers of the points.
fn subtract_below(
    g: Grid,
    xs: &[[u16; 16]; 16],
    ys: &[[u16; 16]; 16],
    t: usize,
    columns: &[[u16; 16]; 16],
    left: &mut [[u16; 16]; 16],
)
    requires { Rows g.modulus.p xs.now × Powers g.modulus.p g.x g.d xs.now × ColumnPowers g ys.now ×
        (t ≤ suc g.d) × Rows g.modulus.p columns.now × Rows g.modulus.p left.old }
    ensures { (s u : List (List ℕ)) → Drawn g t s u left.old columns.now →
        Drawn g 0 s u left.new columns.now }
{
    for j in (0..t).rev() {
        let v = evaluation::values(xs, g.d - j, columns[j], g.modulus);
        remainder::subtract(g, left, v, ys[j]);
    }
}

// The cost of what the columns leave, those from Y^t on being subtracted already, where it is under the radius: then the others
// are subtracted. Else `left` stays as it was. ys has the powers of the column points.
pub fn complete(
    g: Grid,
    ys: &[[u16; 16]; 16],
    t: usize,
    columns: &[[u16; 16]; 16],
    left: &mut [[u16; 16]; 16],
    doubts: &[[u32; 16]; 16],
) -> Option<u32>
    requires { ColumnPowers g ys.now × (t ≤ suc g.d) × Rows g.modulus.p columns.now ×
        Rows g.modulus.p left.old × DoubtRows g doubts.now }
    ensures { Completed g t doubts.now columns.now left.old left.new result }
{
    let xs = evaluation::powers(g.x, g.d, g.modulus);
    let before = *left;
    subtract_below(g, &xs, ys, t, columns, left);
    let cost = remainder::measure(g, left, doubts);
    if cost >= limit::radius(g) {
        *left = before;
        return None;
    }
    Some(cost)
}
