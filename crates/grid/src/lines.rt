// The lines of a mark: each row of what is left, read as a strip over the column points.
ghost use Rattle.std.specs.Prelude.{◌≡◌, ◌≤◌};
ghost use Rattle.bounded.specs.Bounded.{at};
ghost use Rattle.field.specs.Loop.{Upto};
ghost use Rattle.field.specs.Prime.{Inverses};
ghost use Rattle.polynomial.specs.Powers.{Rows};
ghost use Rattle.reed_solomon.specs.Axis.{Received};
ghost use Rattle.grid.specs.Axes.{DoubtRows};
ghost use Rattle.grid.specs.Answers.{Answered, KnownRows, AnsweredRows, kept};

use distance::word;
use polynomial::Grid;
use reed_solomon::axis::Axis;
use reed_solomon::decoder;

// A line's message and its cost. The line hands on the message's leading coefficient, with the cost for its doubt.
#[derive(Clone, Copy)]
pub struct Line {
    pub message: [u16; 16],
    pub cost: u32,
}

// A line read as a strip. Where it has no answer it counts as unread, with the full doubt.
fn read(axis: Axis, inverses: &[u16; 251], symbols: [u16; 16], doubts: [u32; 16]) -> Line
    requires { Received axis symbols doubts × Inverses axis.modulus.p inverses.now }
    ensures { Answered axis symbols doubts result.message result.cost }
{
    match decoder::decode(axis, inverses, symbols, doubts) {
        Some(strip) => {
            // by a variable, since no proof is made where an array goes straight from one struct into another
            let message = strip.message;
            Line {
                message,
                cost: strip.cost,
            }
        }
        None => Line {
            message: [0; 16],
            cost: word::radius(axis.full, 1, axis.n, axis.k),
        },
    }
}

// Reads the lines whose answers are not known: the messages are written where they stand, all costs are returned.
pub fn answer(
    g: Grid,
    inverses: &[u16; 251],
    t: usize,
    messages: &mut [[u16; 16]; 16],
    known: [Option<u32>; 16],
    left: &[[u16; 16]; 16],
    doubts: &[[u32; 16]; 16],
) -> [u32; 16]
    requires { (t ≤ g.d) × Rows g.modulus.p left.now × DoubtRows g doubts.now ×
        KnownRows g t left.now doubts.now messages.old known × Inverses g.modulus.p inverses.now }
    ensures { AnsweredRows g t left.now doubts.now messages.new result }
{
    let axis = Axis {
        modulus: g.modulus,
        x: g.y,
        n: g.b,
        k: t,
        full: g.full,
    };
    let mut costs = [0; 16];
    for r in 0..g.a {
        costs[r] = match known[r] {
            Some(cost) => cost,
            None => {
                let line = read(axis, inverses, left[r], doubts[r]);
                messages[r] = line.message;
                line.cost
            }
        };
    }
    costs
}

// The cost of an answer under the radius whose leading coefficient e is the one that was found, z; else the line is to be read
// again.
fn keep(e: u16, z: u16, cost: u32, radius: u32) -> Option<u32>
    ensures { result ≡ kept e z cost radius }
{
    if e == z && cost < radius {
        return Some(cost);
    }
    None
}

// The costs that are carried to the next degree step.
pub fn carry(
    leading: [u16; 16],
    found: [u16; 16],
    costs: [u32; 16],
    radius: u32,
) -> [Option<u32>; 16]
    ensures { Upto 16 None (λ j v. v ≡ kept (at leading j) (at found j) (at costs j) radius) result 16 }
{
    let mut out = [None; 16];
    for r in 0..16 {
        out[r] = keep(leading[r], found[r], costs[r], radius);
    }
    out
}
