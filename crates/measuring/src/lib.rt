// What a record costs against a photograph, and in how many cells its mark differs, where nothing is refused.
#![tactic(auto)]

ghost use Rattle.std.specs.Prelude.{◌≡◌, List, ℕ, ◌*◌, ◌≤◌, ◌<◌, length};
ghost use Rattle.bounded.specs.Bounded.{at};
ghost use Rattle.polynomial.specs.Record.{grid_value};
ghost use Rattle.polynomial.specs.Powers.{Rows, Powers, Columns};
ghost use Rattle.distance.specs.Doubts.{Doubts};
ghost use Rattle.definitions.specs.Code.{IsRecord};
ghost use Rattle.definitions.specs.Calls.{reading_of};
ghost use Rattle.definitions.specs.Photograph.{Photograph};
ghost use Rattle.plan.specs.Says.{bytes_of};
ghost use Rattle.measuring.specs.Measured.{Measured};

use definitions::Reading;
use distance::word;
use field::bytes;
use plan::Plan;
use plan::kind::{Kind, Mark, Strip};
use polynomial::{Grid, bivariate, evaluation};

// A kind of code whose records can be measured.
pub trait Measure: Kind {
    // The reading of a record.
    fn measure(plan: Plan, record: &[u8], symbols: &[u8], doubts: &[u8]) -> Reading
        requires { Photograph Self.code (bytes_of plan) symbols.now doubts.now
            × IsRecord Self.code (bytes_of plan) «record».now }
        ensures { result ≡ reading_of Self.code (bytes_of plan) symbols.now doubts.now «record».now };
}

impl Measure for Mark {
    fn measure(plan: Plan, record: &[u8], symbols: &[u8], doubts: &[u8]) -> Reading {
        let g = plan.grid;
        let mut columns = [[0u16; 16]; 16];
        let mut ys = [[0u16; 16]; 16];
        bivariate::prepare(record, g, &mut columns, &mut ys);
        let tally = measure_rows(g, &columns, &ys, symbols, doubts);
        answers::reading(Mark::radius(plan), tally.cost, tally.differing, symbols)
    }
}

// A strip has its values at the row points.
impl Measure for Strip {
    fn measure(plan: Plan, record: &[u8], symbols: &[u8], doubts: &[u8]) -> Reading {
        let g = plan.grid;
        let points = g.x;
        let powers = evaluation::powers(points, g.d, g.modulus);
        let values = evaluation::values(&powers, g.d, bytes::row(record), g.modulus);
        let tally = measure_row(symbols, doubts, values, g.full);
        answers::reading(Strip::radius(plan), tally.cost, tally.differing, symbols)
    }
}

// The cost of some cells, and how many of them differ from the record's mark, as an unread cell does.
#[derive(Clone, Copy)]
struct Tally {
    cost: u32,
    differing: u32,
}

// Those of a mark's cells, row by row: at most sixteen rows, each of a cost of at most 2,097,152. X was put in for all rows at
// once, which gave the columns.
fn measure_rows(
    g: Grid,
    columns: &[[u16; 16]; 16],
    ys: &[[u16; 16]; 16],
    symbols: &[u8],
    doubts: &[u8],
) -> Tally
    requires { Rows g.modulus.p columns.now × Rows g.modulus.p ys.now × (length symbols.now ≡ g.a * g.b)
        × (length doubts.now ≡ g.a * g.b) × Doubts g.full (g.a * g.b) (at doubts.now) }
    ensures { (result.cost ≤ 33554432) × ((x y F : List ℕ) → Columns g.modulus.p g.d x F columns.now →
        Powers g.modulus.p y g.d ys.now → Measured g.full (g.a * g.b) (at symbols.now)
        (at doubts.now) (grid_value g.modulus.p g.d g.b (at x) (at y) F) result.cost result.differing) }
{
    let a = g.a;
    let b = g.b;
    let mut cost = 0;
    let mut differing = 0;
    for r in 0..a {
        let values = bivariate::row_values(columns, ys, r, g.d, g.modulus);
        let at = r * b;
        let end = at + b;
        let tally = measure_row(&symbols[at..end], &doubts[at..end], values, g.full);
        cost += tally.cost;
        differing += tally.differing;
    }
    Tally { cost, differing }
}

// Those of the cells of a row, or of a strip: at most sixteen cells, of which each costs at most 131,072 (`cell_cost`).
fn measure_row(symbols: &[u8], doubts: &[u8], values: [u16; 16], full: u32) -> Tally
    requires { (length symbols.now ≤ 16) × (length doubts.now ≡ length symbols.now) × (full < 65536)
        × Doubts full (length symbols.now) (at doubts.now) }
    ensures { Measured full (length symbols.now) (at symbols.now) (at doubts.now)
        (at values)
        result.cost result.differing × (result.cost ≤ 2097152) × (result.differing ≤ 16) }
{
    let mut cost = 0;
    let mut differing = 0;
    for (j, symbol) in symbols.iter().enumerate() {
        let symbol = u16::from(*symbol);
        cost += word::cell_cost(symbol, u32::from(doubts[j]), values[j], full);
        differing += word::differs(symbol, values[j]);
    }
    Tally { cost, differing }
}
