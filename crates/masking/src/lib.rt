// The mark or the strip of a record added to lent symbols where they stand, or taken off again, where nothing is refused.
#![tactic(auto)]

ghost use Rattle.std.specs.Prelude.{◌≡◌, ◌⊎◌, List, ℕ, ◌+◌, ◌-◌, ◌%◌, ◌≤◌, ◌<◌, length};
ghost use Rattle.bounded.specs.Bounded.{at, tab};
ghost use Rattle.definitions.specs.Cost.{unread};
ghost use Rattle.definitions.specs.Accepted.{Writing, Masking};
ghost use Rattle.definitions.specs.Masking.{Way as WayOf, on, off, shift, mask_cell, masked};
ghost use Rattle.plan.specs.Says.{bytes_of};

use definitions::UNREAD;
use plan::Plan;
use writing::Write;

// Which way a mask goes.
pub trait Way {
    // The same for the definitions.
    ghost way: { WayOf };

    // The symbol shifted by the value modulo p, within a byte.
    fn shifted(p: u8, symbol: u8, value: u8) -> u8
        requires { value < p }
        ensures { symbol < p → result ≡ shift way p symbol value };
}

// A mask is put on: the value is added, which is to subtract what it lacks of p.
pub struct On;

// A mask is taken off: the value is subtracted.
pub struct Off;

impl Way for On {
    ghost way = { on };

    fn shifted(p: u8, symbol: u8, value: u8) -> u8 {
        subtracted(p, symbol, p - value)
    }
}

impl Way for Off {
    ghost way = { off };

    fn shifted(p: u8, symbol: u8, value: u8) -> u8 {
        subtracted(p, symbol, value)
    }
}

// The symbol less the part, modulo p.
fn subtracted(p: u8, symbol: u8, part: u8) -> u8
    requires { part ≤ p }
    ensures { symbol < p → result ≡ (symbol + (p - part)) % p }
{
    if symbol < part {
        return symbol + (p - part);
    }
    symbol - part
}

// Masks the symbols of a mark or of a strip, or takes the mask off.
pub fn mask<K: Write, W: Way>(plan: Plan, record: &[u8], symbols: &mut [u8])
    requires { Masking K.code (bytes_of plan) «record».now symbols.old }
    ensures { symbols.new ≡ masked W.way K.code (bytes_of plan) «record».now symbols.old }
{
    let n = symbols.len();
    let mut values = [0u8; 256];
    mask_by::<K, W>(plan, record, &mut values[..n], symbols);
}

// The record's values are written into a buffer of their own, and then added or taken off, cell by cell.
fn mask_by<K: Write, W: Way>(plan: Plan, record: &[u8], values: &mut [u8], symbols: &mut [u8])
    requires { Writing K.code (bytes_of plan) «record».now values.old
        × Masking K.code (bytes_of plan) «record».now symbols.old }
    ensures { symbols.new ≡ masked W.way K.code (bytes_of plan) «record».now symbols.old }
{
    K::write(plan, record, values);
    shift_all::<W>(plan.grid.modulus.p as u8, values, symbols);
}

// All symbols, each by the value of its cell.
fn shift_all<W: Way>(p: u8, values: &[u8], symbols: &mut [u8])
    requires { (length values.now ≡ length symbols.old)
        × ((c : ℕ) → c < length symbols.old → at values.now c < p)
        × ((c : ℕ) → c < length symbols.old → (at symbols.old c < p) ⊎ (at symbols.old c ≡ unread)) }
    ensures { symbols.new ≡ tab (length symbols.old)
        (λ c. mask_cell W.way p (at symbols.old c) (at values.now c)) }
{
    for (c, symbol) in symbols.iter_mut().enumerate() {
        *symbol = masked_symbol::<W>(p, *symbol, values[c]);
    }
}

// One symbol; that of an unread cell stays. It is shifted before that is asked, so that the loop is vectorised.
fn masked_symbol<W: Way>(p: u8, symbol: u8, value: u8) -> u8
    requires { (value < p) × ((symbol < p) ⊎ (symbol ≡ unread)) }
    ensures { result ≡ mask_cell W.way p symbol value }
{
    let moved = W::shifted(p, symbol, value);
    if symbol == UNREAD {
        return symbol;
    }
    moved
}
