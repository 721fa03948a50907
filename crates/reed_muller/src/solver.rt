// The degree steps: one coefficient of Y at a time, from Y^d down to Y^0, is read from the lines and subtracted. Drafts go first.
ghost use Rattle.std.specs.Prelude.{◌≡◌, true, is_some, ◌≤◌, ◌<◌};
ghost use Rattle.field.specs.Prime.{Inverses};
ghost use Rattle.polynomial.specs.Powers.{Rows};
ghost use Rattle.grid.specs.Axes.{DoubtRows, ColumnPowers};
ghost use Rattle.grid.specs.Answers.{KnownRows};
ghost use Rattle.reed_muller.specs.Steps.{Stepped, Drafted, Solved};

use distance::word;
use grid::{lines, remainder, trial};
use polynomial::{Grid, bivariate, evaluation, limit};
use reed_solomon::axis::Axis;
use reed_solomon::decoder::{self, Decoded};

// What a step gives: the coefficients of Y^t by rising power of X, and the costs of the lines whose answers are kept.
#[derive(Clone, Copy)]
pub struct Column {
    pub message: [u16; 16],
    pub known: [Option<u32>; 16],
}

// The powers of the column points, made at the first step that has an answer, which is that of degree d: a mark without one ends
// before.
fn make_powers(g: Grid, t: usize, ys: &mut [[u16; 16]; 16])
    requires { (t ≤ g.d) × (t < g.d → ColumnPowers g ys.old) }
    ensures { ColumnPowers g ys.new }
{
    if t == g.d {
        *ys = evaluation::powers(g.y, g.d, g.modulus);
    }
}

// The coefficients of Y^t: the lines' leading coefficients are a strip over the row points of degree d - t, whose doubts are the
// lines' costs and whose full doubt is the lines' radius. So nothing is divided or rounded.
fn step(
    g: Grid,
    inverses: &[u16; 251],
    ys: &mut [[u16; 16]; 16],
    t: usize,
    known: [Option<u32>; 16],
    messages: &mut [[u16; 16]; 16],
    left: &mut [[u16; 16]; 16],
    doubts: &[[u32; 16]; 16],
) -> Option<Column>
    requires { Inverses g.modulus.p inverses.now × (t < g.d → ColumnPowers g ys.old) × (t ≤ g.d) ×
        Rows g.modulus.p left.old × DoubtRows g doubts.now ×
        KnownRows g t left.old doubts.now messages.old known }
    ensures { Stepped g t left.old doubts.now left.new messages.new result
        × (is_some result ≡ true → ColumnPowers g ys.new) }
{
    let costs = lines::answer(g, inverses, t, messages, known, left, doubts);
    let leading = bivariate::place_of_each(messages, t);
    let radius = word::radius(g.full, 1, g.b, t);
    // by a variable, since no proof is made where an array goes straight from one struct into another
    let x = g.x;
    let axis = Axis {
        modulus: g.modulus,
        x,
        n: g.a,
        k: g.d - t,
        full: radius,
    };
    let Decoded {
        message,
        values,
        ..
    } = decoder::decode(axis, inverses, leading, costs)?;
    make_powers(g, t, ys);
    remainder::subtract(g, left, values, ys[t]);
    let known = lines::carry(leading, values, costs, radius);
    Some(Column { message, known })
}

// All steps, from Y^d down: the coefficients of Y^t go to row t of the columns, and what is left stays in `left`. Returns what it
// costs, if that is under the radius; at a step without an answer none, since then no record is. As soon as enough lines are
// known the columns that are missing are drafted from them, once.
fn solve_by_degrees(
    g: Grid,
    inverses: &[u16; 251],
    left: &mut [[u16; 16]; 16],
    doubts: &[[u32; 16]; 16],
    columns: &mut [[u16; 16]; 16],
) -> Option<u32>
    requires { Inverses g.modulus.p inverses.now × Rows g.modulus.p left.old × DoubtRows g doubts.now ×
        Rows g.modulus.p columns.old }
    ensures { Solved g left.old doubts.now left.new columns.new result }
{
    let mut ys = [[0; 16]; 16];
    let mut messages = [[0; 16]; 16];
    let mut known = [None; 16];
    let mut untried = true;
    for t in (0..g.d + 1).rev() {
        let column = step(g, inverses, &mut ys, t, known, &mut messages, left, doubts)?;
        // by a variable, as above
        let message = column.message;
        columns[t] = message;
        known = column.known;
        if untried && drafts::columns::from_lines(g, inverses, t, &messages, known, columns) {
            untried = false;
            if let Some(cost) = trial::complete(g, &ys, t, columns, left, doubts) {
                return Some(cost);
            }
        }
    }
    let cost = remainder::measure(g, left, doubts);
    if cost < limit::radius(g) {
        return Some(cost);
    }
    None
}

// The draft from the cells, tried: its cost, if that is under the radius; then it is subtracted, else `left` stays as it was.
fn try_cells(
    g: Grid,
    inverses: &[u16; 251],
    left: &mut [[u16; 16]; 16],
    doubts: &[[u32; 16]; 16],
    columns: &mut [[u16; 16]; 16],
) -> Option<u32>
    requires { Inverses g.modulus.p inverses.now × Rows g.modulus.p left.old × DoubtRows g doubts.now ×
        Rows g.modulus.p columns.old }
    ensures { Drafted g left.old doubts.now left.new columns.new result }
{
    if !drafts::columns::from_cells(g, inverses, left, columns) {
        return None;
    }
    let ys = evaluation::powers(g.y, g.d, g.modulus);
    trial::complete(g, &ys, g.d + 1, columns, left, doubts)
}

// The record under the radius, if there is one: its coefficients of Y^t in row t of the columns, what it leaves of the symbols in
// `left`, and its cost.
pub fn solve(
    g: Grid,
    inverses: &[u16; 251],
    left: &mut [[u16; 16]; 16],
    doubts: &[[u32; 16]; 16],
    columns: &mut [[u16; 16]; 16],
) -> Option<u32>
    requires { Inverses g.modulus.p inverses.now × Rows g.modulus.p left.old × DoubtRows g doubts.now ×
        Rows g.modulus.p columns.old }
    ensures { Solved g left.old doubts.now left.new columns.new result }
{
    if let Some(cost) = try_cells(g, inverses, left, doubts, columns) {
        return Some(cost);
    }
    solve_by_degrees(g, inverses, left, doubts, columns)
}
