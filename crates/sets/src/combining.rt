// The combination of the photographs that a set holds.
ghost use Rattle.std.specs.Prelude.{◌≡◌, ◌≤◌, ◌<◌, length};
ghost use Rattle.bounded.specs.Bounded.{tab};
ghost use Rattle.votes.specs.Votes.{symbol_of, doubt_of};
ghost use Rattle.definitions.specs.Numbers.{number_of};
ghost use Rattle.definitions.specs.Sets.{set_bytes, column as column_of, combine_number, combine_symbols, combine_doubts};

use definitions::{PLACE_BYTES, PLACES, PLAN_BYTES, Refusal};
use plan::Plan;
use std::array;

// Fills both buffers with the combination. The refusals of the set's plan, and 6.
pub fn combine(set: &[u8], symbols: &mut [u8], doubts: &mut [u8]) -> Result<(), Refusal>
    requires { length set.now ≡ set_bytes }
    ensures number { number_of result ≡ combine_number set.now symbols.old doubts.old }
    ensures symbols { symbols.new
        ≡ combine_symbols set.now symbols.old doubts.old }
    ensures doubts { doubts.new
        ≡ combine_doubts set.now symbols.old doubts.old }
{
    let plan = Plan::try_from(&set[0..PLAN_BYTES])?;
    checks::combine(plan, symbols, doubts)?;
    cells(set, plan.grid.full as u8, symbols, doubts);
    Ok(())
}

// Each cell by its nine symbols; the full doubt is given. The compiler does many cells at once.
pub fn cells(set: &[u8], full: u8, symbols: &mut [u8], doubts: &mut [u8])
    requires { (length set.now ≡ set_bytes) × (length symbols.old ≤ 256) × (length doubts.old ≡ length symbols.old) }
    ensures symbols { symbols.new
        ≡ tab (length symbols.old) (λ c. symbol_of (column_of set.now c) 9) }
    ensures doubts { doubts.new
        ≡ tab (length symbols.old) (λ c. doubt_of full (column_of set.now c) 9) }
{
    for (c, symbol) in symbols.iter_mut().enumerate() {
        let cell = votes::combine(column(set, c), full);
        *symbol = cell.symbol;
        doubts[c] = cell.doubt;
    }
}

// The nine symbols of a cell.
fn column(set: &[u8], c: usize) -> [u8; 9]
    requires { (length set.now ≡ set_bytes) × (c < 256) }
    ensures { result ≡ column_of set.now c }
{
    array::from_fn(|k| set[PLACES + k * PLACE_BYTES + c])
}
