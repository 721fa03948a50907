// The refusals of writing, masking, measuring, reading and explaining under a sound plan, for both kinds of code, and those of
// sets: one test for each row of document 01's table "What is returned", in its order. Records and buffers may be any bytes of
// any length. A loop over cells looks at all of them, with no way out, so that it is vectorised.
#![tactic(auto)]

ghost use Rattle.std.specs.Prelude.{◌≡◌, not, ◌&&◌, ◌||◌, List, [], ◌∷◌, ℕ, eqb, ltb, leb, length};
ghost use Rattle.definitions.specs.Numbers.{number_of};
ghost use Rattle.definitions.specs.Refusals.{◌when◌, first};
ghost use Rattle.definitions.specs.Cost.{unread};
ghost use Rattle.definitions.specs.Calls.{strange, misdoubted, photo_rows, write_number, measure_number};
ghost use Rattle.definitions.specs.Masking.{mask_number};
ghost use Rattle.definitions.specs.Explaining.{explain_number};
ghost use Rattle.definitions.specs.Sets.{set_bytes, set_plan, add_number, combine_number};
ghost use Rattle.plan.specs.Says.{bytes_of};

use definitions::{FLAGS, Refusal, UNREAD};
use field::bytes;
use plan::Plan;
use plan::kind::{Kind, Mark};

// Refusals 6 and 9, those of writing: the first that applies. Of the buffer only the length counts.
pub fn write<K: Kind>(plan: Plan, record: &[u8], buffer: &[u8]) -> Result<(), Refusal>
    ensures { number_of result ≡ write_number K.code (bytes_of plan) «record».now buffer.now }
{
    Refusal::Length.when(record.len() != K::record_size(plan))?;
    Refusal::Length.when(buffer.len() != K::cell_count(plan))?;
    Refusal::Coefficient.when(bytes::reaches(record, plan.grid.modulus.p as u8))
}

// Refusals 6, 7 and 9, those of masking.
pub fn mask<K: Kind>(plan: Plan, record: &[u8], symbols: &[u8]) -> Result<(), Refusal>
    ensures { number_of result ≡ mask_number K.code (bytes_of plan) «record».now symbols.now }
{
    Refusal::Length.when(record.len() != K::record_size(plan))?;
    Refusal::Length.when(symbols.len() != K::cell_count(plan))?;
    Refusal::Symbol.when(is_strange(plan.grid.modulus.p as u8, symbols))?;
    Refusal::Coefficient.when(bytes::reaches(record, plan.grid.modulus.p as u8))
}

// Refusals 6 to 8, those of a photograph with a record or the buffer for one. Of the record only the length counts.
pub fn photograph<K: Kind>(
    plan: Plan,
    symbols: &[u8],
    doubts: &[u8],
    record: &[u8],
) -> Result<(), Refusal>
    ensures { number_of result ≡ first (photo_rows K.code (bytes_of plan) symbols.now doubts.now «record».now) }
{
    let n = K::cell_count(plan);
    Refusal::Length.when(symbols.len() != n)?;
    Refusal::Length.when(doubts.len() != n)?;
    Refusal::Length.when(record.len() != K::record_size(plan))?;
    cells(plan, symbols, doubts)
}

// Refusals 6 to 9, those of measuring.
pub fn measure<K: Kind>(
    plan: Plan,
    symbols: &[u8],
    doubts: &[u8],
    record: &[u8],
) -> Result<(), Refusal>
    ensures { number_of result ≡ measure_number K.code (bytes_of plan) symbols.now doubts.now «record».now }
{
    photograph::<K>(plan, symbols, doubts, record)?;
    Refusal::Coefficient.when(bytes::reaches(record, plan.grid.modulus.p as u8))
}

// Refusals 6 to 9, those of explaining: of measuring the expected record, with room for another. Of `other` only the length
// counts.
pub fn explain<K: Kind>(
    plan: Plan,
    symbols: &[u8],
    doubts: &[u8],
    record: &[u8],
    other: &[u8],
) -> Result<(), Refusal>
    ensures { number_of result
        ≡ explain_number K.code (bytes_of plan) symbols.now doubts.now «record».now other.now }
{
    Refusal::Length.when(other.len() != K::record_size(plan))?;
    measure::<K>(plan, symbols, doubts, record)
}

// Refusals 6, 17, 7 and 8, those of photograph k that arrives in the set under whose own plan it is.
pub fn add(plan: Plan, set: &[u8], k: u32, symbols: &[u8], doubts: &[u8]) -> Result<(), Refusal>
    requires { length set.now ≡ set_bytes }
    ensures { bytes_of plan ≡ set_plan set.now →
        number_of result ≡ add_number set.now k symbols.now doubts.now }
{
    let n = Mark::cell_count(plan);
    Refusal::Length.when(symbols.len() != n)?;
    Refusal::Length.when(doubts.len() != n)?;
    Refusal::Held.when(8 < k)?;
    Refusal::Held.when(set[FLAGS + k as usize] != 0)?;
    cells(plan, symbols, doubts)
}

// Refusal 6, that of the buffers for a combination. Only their lengths count.
pub fn combine(plan: Plan, symbols: &[u8], doubts: &[u8]) -> Result<(), Refusal>
    ensures { (S : List ℕ) → bytes_of plan ≡ set_plan S → number_of result ≡ combine_number S symbols.now doubts.now }
{
    let n = Mark::cell_count(plan);
    Refusal::Length.when(symbols.len() != n)?;
    Refusal::Length.when(doubts.len() != n)
}

// Refusals 7 and 8, of as many symbols as doubts.
fn cells(plan: Plan, symbols: &[u8], doubts: &[u8]) -> Result<(), Refusal>
    requires { length doubts.now ≡ length symbols.now }
    ensures { number_of result ≡ first ((7 when strange plan.grid.modulus.p symbols.now (length symbols.now))
        ∷ (8 when misdoubted plan.grid.full symbols.now doubts.now (length symbols.now)) ∷ []) }
{
    Refusal::Symbol.when(is_strange(plan.grid.modulus.p as u8, symbols))?;
    Refusal::Doubt.when(is_misdoubted(plan.grid.full as u8, symbols, doubts))
}

// Whether a symbol is p or more and not that of an unread cell.
fn is_strange_symbol(symbol: u8, p: u8) -> bool
    ensures { result ≡ (leb p symbol && not (eqb symbol unread)) }
{
    p <= symbol && symbol != UNREAD
}

// Whether one of the symbols is such.
fn is_strange(p: u8, symbols: &[u8]) -> bool
    ensures { result ≡ strange p symbols.now (length symbols.now) }
{
    let mut found = false;
    for symbol in symbols {
        found |= is_strange_symbol(*symbol, p);
    }
    found
}

// Whether a doubt is above the full doubt, or an unread cell's is not the full doubt.
fn is_misdoubted_cell(full: u8, symbol: u8, doubt: u8) -> bool
    ensures { result ≡ (ltb full doubt || (eqb symbol unread && not (eqb doubt full))) }
{
    if symbol == UNREAD {
        doubt != full
    } else {
        full < doubt
    }
}

// Whether one of the cells is such.
fn is_misdoubted(full: u8, symbols: &[u8], doubts: &[u8]) -> bool
    requires { length doubts.now ≡ length symbols.now }
    ensures { result ≡ misdoubted full symbols.now doubts.now (length symbols.now) }
{
    let mut found = false;
    for (symbol, doubt) in symbols.iter().zip(doubts) {
        found |= is_misdoubted_cell(full, *symbol, *doubt);
    }
    found
}
