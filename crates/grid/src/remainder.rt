// What is left of a mark's symbols: a column is subtracted from it, and it is measured.
ghost use Rattle.std.specs.Prelude.{◌≡◌};
ghost use Rattle.field.specs.Row.{Row};
ghost use Rattle.polynomial.specs.Powers.{Rows};
ghost use Rattle.grid.specs.Axes.{DoubtRows};
ghost use Rattle.grid.specs.Loops.{cell_at};
ghost use Rattle.grid.specs.Cost.{remaining};
ghost use Rattle.grid.specs.Drawn.{Without};

use distance::word;
use polynomial::Grid;

// Subtracts the column with the values v at the row points, times the power of Y.
pub fn subtract(g: Grid, left: &mut [[u16; 16]; 16], v: [u16; 16], power: [u16; 16])
    requires { Rows g.modulus.p left.old × Row g.modulus.p v × Row g.modulus.p power }
    ensures { Without g left.old v power left.new }
{
    for r in 0..g.a {
        if v[r] != 0 {
            left[r] = g.modulus.add_multiple(left[r], g.modulus.p - v[r], power);
        }
    }
}

// What is left, measured against 0.
pub fn measure(g: Grid, left: &[[u16; 16]; 16], doubts: &[[u32; 16]; 16]) -> u32
    requires { DoubtRows g doubts.now }
    ensures { result ≡ remaining g.full g.a g.b (cell_at doubts.now) (cell_at left.now) }
{
    let mut sum = 0;
    for r in 0..g.a {
        sum += word::word_cost(g.b, left[r], doubts[r], [0; 16], g.full);
    }
    sum
}
