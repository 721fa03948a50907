// One cell of nine photographs, of which any may be unread there or not held at all: the symbol with most votes, and its doubt.
// Every function looks at all nine, with no way out and nothing asked before a load, so that a loop over cells is vectorised. It
// is not where one of them is written by `array::map`, or by `filter` and `count`.
#![tactic(auto)]

ghost use Rattle.std.specs.Prelude.{◌≡◌, cond, ℕ, ◌*◌, ◌-◌, ◌/◌, ◌≤◌, ◌<◌, max, eqb};
ghost use Rattle.bounded.specs.Bounded.{at, tab};
ghost use Rattle.votes.specs.Votes.{votes as votes_for, cast as cast_in, most as most_of, symbol_of, doubt_of};
ghost use Rattle.votes.specs.Majority.{counted, lowness, other};

use std::array;

// The symbol that casts no vote.
const SILENT: u8 = 255;

// A combined cell.
#[derive(Clone, Copy)]
pub struct Cell {
    pub symbol: u8,
    pub doubt: u8,
}

// The symbol with most votes and its doubt, the full doubt being given; unread at full doubt where no vote is cast.
pub fn combine(x: [u8; 9], full: u8) -> Cell
    ensures { (result.symbol ≡ symbol_of x 9) × (result.doubt ≡ doubt_of full x 9) }
{
    let counts = counts(x);
    let m = most(counts);
    let symbol = SILENT - most(lownesses(x, counts, m));
    let s = most(others(x, counts, symbol));
    let t = cast(x).max(1);
    Cell {
        symbol,
        doubt: doubt(full, m, s, t),
    }
}

// For each photograph how many votes its symbol has; and that the symbols are bytes.
fn counts(x: [u8; 9]) -> [u8; 9]
    ensures { (result ≡ tab 9 (counted x)) × ((k : ℕ) → k < 9 → at x k ≤ 255) }
{
    array::from_fn(|k| unless(x[k], SILENT, votes(x, x[k])))
}

// The votes of a symbol, and none where it is the one left out. That the symbol is a byte is told too.
fn unless(symbol: u8, out: u8, votes: u8) -> u8
    ensures { (result ≡ cond (eqb symbol out) 0 votes) × (symbol ≤ 255) }
{
    if symbol == out { 0 } else { votes }
}

// How many of the nine symbols are v.
fn votes(x: [u8; 9], v: u8) -> u8
    ensures { (result ≡ votes_for x 9 v) × (result ≤ 9) }
{
    let mut n = 0;
    for symbol in x {
        n += u8::from(symbol == v);
    }
    n
}

// How many votes are cast.
fn cast(x: [u8; 9]) -> u8
    ensures { result ≡ cast_in x 9 }
{
    9 - votes(x, SILENT)
}

// The largest of nine numbers.
fn most(x: [u8; 9]) -> u8
    ensures { result ≡ most_of 9 (at x) }
{
    let mut m = 0u8;
    for v in x {
        m = m.max(v);
    }
    m
}

// 255 less the symbol where it has m votes, else 0: the largest of them is that of the smallest symbol.
fn lownesses(x: [u8; 9], counts: [u8; 9], m: u8) -> [u8; 9]
    ensures { result ≡ tab 9 (lowness x counts m) }
{
    array::from_fn(|k| low(x[k], counts[k], m))
}

fn low(symbol: u8, votes: u8, m: u8) -> u8
    ensures { result ≡ cond (eqb votes m) (255 - symbol) 0 }
{
    if votes == m { SILENT - symbol } else { 0 }
}

// The votes of each symbol but the winner.
fn others(x: [u8; 9], counts: [u8; 9], winner: u8) -> [u8; 9]
    ensures { result ≡ tab 9 (other x counts winner) }
{
    array::from_fn(|k| unless(x[k], winner, counts[k]))
}

// The full doubt less the whole part of full doubt times (m - s) / t.
fn doubt(full: u8, m: u8, s: u8, t: u8) -> u8
    requires { (s ≤ m) × (m ≤ t) × (0 < t) }
    ensures { result ≡ full - full * (m - s) / t }
{
    let less = u16::from(full) * u16::from(m - s) / u16::from(t);
    full - less as u8
}
