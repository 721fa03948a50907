// The decoder of marks: the solver gives the one record under the radius, or there is none.
ghost use Rattle.std.specs.Prelude.{◌≡◌, length};
ghost use Rattle.field.specs.Prime.{Inverses};
ghost use Rattle.polynomial.specs.Powers.{Rows};
ghost use Rattle.polynomial.specs.Record.{longest};
ghost use Rattle.grid.specs.Axes.{DoubtRows};
ghost use Rattle.reed_muller.specs.Outcome.{Outcome};

use crate::{message, solver};
use polynomial::Grid;
use polynomial::bivariate::LONGEST;

// Of the record that was found: what it leaves of the symbols, and its cost.
#[derive(Clone, Copy)]
pub struct Found {
    pub left: [[u16; 16]; 16],
    pub cost: u32,
}

// Takes the square of the symbols, each below p, and that of the doubts by value, and returns what is left of the symbols by
// value. Where a record is under the radius, the message becomes that record, of which the groups up to degree d count.
pub fn decode(
    g: Grid,
    inverses: &[u16; 251],
    symbols: [[u16; 16]; 16],
    doubts: [[u32; 16]; 16],
    message: &mut [u16; LONGEST],
) -> Option<Found>
    requires { Rows g.modulus.p symbols × DoubtRows g doubts × Inverses g.modulus.p inverses.now
        × (length message.old ≡ longest) }
    ensures { Outcome g symbols doubts result message.new × (length message.new ≡ longest) }
{
    let mut left = symbols;
    let mut columns = [[0; 16]; 16];
    let cost = solver::solve(g, inverses, &mut left, &doubts, &mut columns)?;
    message::flatten(message, &columns, g.d);
    Some(Found { left, cost })
}
