// The plan of a season as a struct.
ghost use Rattle.std.specs.Prelude.{◌≡◌};
ghost use Rattle.definitions.specs.Cost.{full_in};
ghost use Rattle.definitions.specs.Sound.{Sound};
ghost use Rattle.plan.specs.Bytes.{said};

use polynomial::Grid;

// What a sound plan says. Its marks are on the grid, its strips over the grid's row points; the places beyond the points are 0.
#[derive(Clone, Copy)]
pub struct Plan {
    pub season: u16,
    pub grid: Grid,
    ghost sound: { Sound (said season grid) },
    ghost scale: { grid.full ≡ full_in season },
}
