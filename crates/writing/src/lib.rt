// The mark or the strip of a record, written into a lent buffer where nothing is refused.
#![tactic(auto)]

ghost use Rattle.std.specs.Prelude.{◌≡◌, List, ℕ, ◌*◌, length};
ghost use Rattle.bounded.specs.Bounded.{at, tab};
ghost use Rattle.polynomial.specs.Record.{grid_value};
ghost use Rattle.polynomial.specs.Powers.{Rows, Powers, Columns};
ghost use Rattle.definitions.specs.Code.{mark as mark_of};
ghost use Rattle.definitions.specs.Accepted.{Writing};
ghost use Rattle.plan.specs.Says.{bytes_of};

use field::bytes;
use plan::Plan;
use plan::kind::{Kind, Mark, Strip};
use polynomial::{Grid, bivariate, evaluation};

// A kind of code whose records can be written.
pub trait Write: Kind {
    // Fills the cells.
    fn write(plan: Plan, record: &[u8], cells: &mut [u8])
        requires { Writing Self.code (bytes_of plan) «record».now cells.old }
        ensures { cells.new ≡ mark_of Self.code (bytes_of plan) «record».now };
}

impl Write for Mark {
    fn write(plan: Plan, record: &[u8], cells: &mut [u8]) {
        let g = plan.grid;
        let mut columns = [[0u16; 16]; 16];
        let mut ys = [[0u16; 16]; 16];
        bivariate::prepare(record, g, &mut columns, &mut ys);
        write_rows(g, &columns, &ys, cells);
    }
}

// The rows of a mark, one after the other, each into its own part of it. X was put in for all rows at once, which gave the
// columns.
fn write_rows(g: Grid, columns: &[[u16; 16]; 16], ys: &[[u16; 16]; 16], mark: &mut [u8])
    requires { Rows g.modulus.p columns.now × Rows g.modulus.p ys.now × (length mark.old ≡ g.a * g.b) }
    ensures { (x y F : List ℕ) → Columns g.modulus.p g.d x F columns.now →
        Powers g.modulus.p y g.d ys.now →
        mark.new ≡ tab (g.a * g.b) (grid_value g.modulus.p g.d g.b (at x) (at y) F) }
{
    let a = g.a;
    let b = g.b;
    for r in 0..a {
        let values = bivariate::row_values(columns, ys, r, g.d, g.modulus);
        let at = r * b;
        let end = at + b;
        bytes::store(&mut mark[at..end], &values);
    }
}

// A strip has its values at the row points.
impl Write for Strip {
    fn write(plan: Plan, record: &[u8], cells: &mut [u8]) {
        let g = plan.grid;
        let points = g.x;
        let powers = evaluation::powers(points, g.d, g.modulus);
        let values = evaluation::values(&powers, g.d, bytes::row(record), g.modulus);
        bytes::store(cells, &values);
    }
}
