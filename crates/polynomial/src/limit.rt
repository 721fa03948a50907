// How far a record on a grid may be from a photograph.
ghost use Rattle.std.specs.Prelude.{◌≡◌, ◌<◌};
ghost use Rattle.polynomial.specs.Fit.{grid_radius};

use crate::Grid;
use distance::word;

// The full doubt times max(a, b) (min(a, b) - d). Two different records differ in max(a, b) (min(a, b) - d) cells or more, so at
// most one costs less.
pub fn radius(g: Grid) -> u32
    ensures { (result ≡ grid_radius g) × (result < 2147483648) }
{
    if g.a < g.b {
        return word::radius(g.full, g.b, g.a, g.d);
    }
    word::radius(g.full, g.a, g.b, g.d)
}
