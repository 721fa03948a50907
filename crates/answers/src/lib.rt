// What calls answer of a record: how many cells are unread, the class of a changed count, the margin, and the readings that they
// return.
#![tactic(auto)]

ghost use Rattle.std.specs.Prelude.{◌≡◌, ◌≤◌, ◌<◌, length};
ghost use Rattle.definitions.specs.Numbers.{answered as answer_of};
ghost use Rattle.definitions.specs.Cost.{unread_cell, margin as margin_of, class};
ghost use Rattle.answers.specs.Summary.{unread_in, summary};

use definitions::{Reading, Refusal, UNREAD};

// 1 for a cell that was not read.
fn cell_unread(symbol: u8) -> u16
    ensures { (result ≡ unread_cell symbol) × (result ≤ 1) }
{
    u16::from(symbol == UNREAD)
}

// How many cells were not read. 16 bits have the count, which takes half the work of 32.
fn unread_cells(symbols: &[u8]) -> u32
    requires { length symbols.now ≤ 65535 }
    ensures { result ≡ unread_in symbols.now }
{
    let mut count = 0u16;
    for symbol in symbols {
        count += cell_unread(*symbol);
    }
    u32::from(count)
}

// The class of a changed count.
pub fn class_of(changed: u32) -> u32
    ensures { result ≡ class changed }
{
    match changed {
        0 => 0,
        1..=3 => 1,
        4..=15 => 2,
        _ => 3,
    }
}

// R - D: negative where the record is beyond the radius, 0 exactly on it.
// Both are below 2^31 = 2147483648, so that an i32 has it.
pub fn margin(radius: u32, cost: u32) -> i32
    requires { (radius < 2147483648) × (cost < 2147483648) }
    ensures { result ≡ margin_of radius cost }
{
    (radius as i32) - (cost as i32)
}

// The reading of a record with this cost, where so many cells differ from its mark. Those that were not read are counted apart;
// the others are changed.
pub fn reading(radius: u32, cost: u32, differing: u32, symbols: &[u8]) -> Reading
    requires { (radius < 2147483648) × (cost < 2147483648) × (length symbols.now ≤ 65535)
        × (unread_in symbols.now ≤ differing) }
    ensures { result ≡ summary radius cost differing symbols.now }
{
    let margin = margin(radius, cost);
    let unread = unread_cells(symbols);
    let changed = differing - unread;
    let class = class_of(changed);
    Reading {
        number: 0,
        cost,
        margin,
        changed,
        unread,
        class,
    }
}

// The reading of an outcome: of a refusal the number and zeros.
pub fn answered(outcome: Result<Reading, Refusal>) -> Reading
    ensures { result ≡ answer_of outcome }
{
    match outcome {
        Ok(reading) => reading,
        Err(refusal) => Reading {
            number: refusal.number(),
            cost: 0,
            margin: 0,
            changed: 0,
            unread: 0,
            class: 0,
        },
    }
}
