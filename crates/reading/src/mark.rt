// Reading a photographed mark.
ghost use Rattle.std.specs.Prelude.{◌≡◌, List, ℕ, ◌*◌, ◌≤◌, length, MatchResult};
ghost use Rattle.bounded.specs.Bounded.{at, sum};
ghost use Rattle.distance.specs.Cost.{hamming};
ghost use Rattle.definitions.specs.Code.{oblong};
ghost use Rattle.definitions.specs.Numbers.{answered};
ghost use Rattle.definitions.specs.declared.Refusal.TheVariants.{NoneNear};
ghost use Rattle.definitions.specs.Reads.{Reads};
ghost use Rattle.plan.specs.Says.{bytes_of};
ghost use Rattle.reading.specs.Loading.{Taken};
ghost use Rattle.reading.specs.Differing.{flag, differing_cells};

use crate::{Read, load};
use definitions::{Reading, Refusal, UNREAD};
use distance::word;
use field::bytes;
use field::inverse::inverses;
use plan::Plan;
use plan::kind::{Kind, Mark};
use polynomial::Grid;
use polynomial::bivariate::LONGEST;
use reed_muller::decoder::decode;

// Other than 0 for a cell that differs from the mark: it is unread, or something is left of its symbol.
fn cell_flag(symbol: u8, left: u16) -> u16
    ensures { result ≡ flag symbol left }
{
    if symbol == UNREAD {
        return 1;
    }
    left
}

// How many cells of a row differ, from its symbols and what the decoder left of them. 16 bits have the count, which takes half
// the work of 32.
fn differing_in_row(symbols: &[u8], left: [u16; 16]) -> u32
    requires { length symbols.now ≤ 16 }
    ensures { (result ≡ hamming (length symbols.now) (λ c. flag (at symbols.now c) (at left c)) (λ _. 0))
        × (result ≤ 16) }
{
    let mut sum = 0u16;
    for (i, symbol) in symbols.iter().enumerate() {
        sum += word::differs(cell_flag(*symbol, left[i]), 0) as u16;
    }
    u32::from(sum)
}

// The same of a mark on the grid.
fn differing_cells(symbols: &[u8], g: Grid, left: &[[u16; 16]; 16]) -> u32
    requires { length symbols.now ≡ g.a * g.b }
    ensures { result ≡ differing_cells g.a g.b symbols.now left.now }
{
    let mut sum = 0;
    for r in 0..g.a {
        let at = r * g.b;
        sum += differing_in_row(&symbols[at..at + g.b], left[r]);
    }
    sum
}

// The sum of the doubts: no record costs less. At most 256 bytes come to less than 2^16, which takes half the work of 32 bits.
fn total(doubts: &[u8]) -> u32
    requires { length doubts.now ≤ 256 }
    ensures { result ≡ sum (length doubts.now) (at doubts.now) }
{
    let mut sum = 0u16;
    for doubt in doubts {
        sum += u16::from(*doubt);
    }
    u32::from(sum)
}

// The mark, by the decoder.
fn decoded(plan: Plan, symbols: &[u8], doubts: &[u8], record: &mut [u8]) -> Result<Reading, Refusal>
    requires { Taken oblong (bytes_of plan) symbols.now doubts.now «record».old }
    ensures reads { Reads oblong (bytes_of plan) symbols.now doubts.now «record».old (answered result) «record».new }
    ensures only { MatchResult result (λ r. r.number ≡ 0) (λ e. e ≡ NoneNear) }
{
    let g = plan.grid;
    let u = load::doubt_rows(doubts, g.a, g.b);
    let table = inverses(g.modulus);
    let s = load::residue_rows(symbols, g.a, g.b);
    let mut message = [0; LONGEST];
    let Some(found) = decode(g, &table, s, u, &mut message) else {
        return Err(Refusal::NoneNear);
    };
    bytes::store(record, &message);
    let differing = differing_cells(symbols, g, &found.left);
    Ok(answers::reading(Mark::radius(plan), found.cost, differing, symbols))
}

// Doubts that come to the radius leave no record under it.
impl Read for Mark {
    fn read(
        plan: Plan,
        symbols: &[u8],
        doubts: &[u8],
        record: &mut [u8],
    ) -> Result<Reading, Refusal> {
        if total(doubts) >= Mark::radius(plan) {
            return Err(Refusal::NoneNear);
        }
        decoded(plan, symbols, doubts, record)
    }
}
