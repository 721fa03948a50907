// Several photographs of one tray: a set of them, in memory that the caller lends. It is a fixed number of bytes, and any bytes
// are answered; a set begins with `traymark_set_start`. Nothing is kept elsewhere.
ghost use Rattle.std.specs.Prelude.{◌≡◌, length};
ghost use Rattle.definitions.specs.Plan.{check_number};
ghost use Rattle.definitions.specs.Code.{oblong, cells};
ghost use Rattle.definitions.specs.Sets.{set_bytes, set_plan, start_memory, add_number, add_memory};
ghost use Rattle.definitions.specs.Sets.{withdraw_number, withdraw_memory, combine_number, combine_symbols, combine_doubts};
ghost use Rattle.definitions.specs.Sets.{set_reading, set_record};
ghost use Rattle.definitions.specs.Numbers.{answered};
ghost use Rattle.plan.specs.Says.{bytes_of};

use definitions::{PLAN_BYTES, Reading, Refusal, SET_BYTES, number};
use plan::Plan;
use plan::kind::{Kind, Mark};
use reading::Read;
use sets::{combining, holding};

// How many bytes a set is.
pub fn traymark_set_size() -> usize
    ensures { result ≡ set_bytes }
{
    SET_BYTES
}

// Starts a set from a plan, with no photograph held, whatever the bytes were: a set in use is emptied. `plan` is any bytes of any
// length, and is only read.
//
// Returns 0, else leaves the set as it was and returns the first that applies, in this order, of
//   1, 2, 3, 13, 4, 5  the plan is refused, as by `traymark_check_plan`
pub fn traymark_set_start(set: &mut [u8; SET_BYTES], plan: &[u8]) -> u32
    ensures number { result ≡ check_number plan.now }
    ensures memory { set.new ≡ start_memory plan.now set.old }
{
    number(holding::start(set, plan))
}

// Adds a photograph of the set's plan, under a number from 0 to 8 that is free. `symbols` and `doubts` are any bytes of any
// length, and are only read; the doubts are checked and not used.
//
// Returns 0, else leaves the set as it was and returns the first that applies, in this order, of
//   1, 2, 3, 13, 4, 5  the plan in the set is refused: never where these calls have made the set
//   6                  `symbols` or `doubts` has not rows times columns bytes
//   17                 `photograph` is above 8, or is held
//   7                  a symbol is p or more and not 255
//   8                  a doubt is above the full doubt, which is 100 before season 30 and 250 from it on, or an unread
//                      cell's is not the full doubt
pub fn traymark_set_add(
    set: &mut [u8; SET_BYTES],
    photograph: u32,
    symbols: &[u8],
    doubts: &[u8],
) -> u32
    ensures number { result ≡ add_number set.old photograph symbols.now doubts.now }
    ensures memory { set.new
        ≡ add_memory set.old photograph symbols.now doubts.now }
{
    number(holding::add(set, photograph, symbols, doubts))
}

// Withdraws a photograph; its number is free again.
//
// Returns 0, else leaves the set as it was and returns
//   18  `photograph` is not held; so every number above 8
pub fn traymark_set_withdraw(set: &mut [u8; SET_BYTES], photograph: u32) -> u32
    ensures number { result ≡ withdraw_number set.old photograph }
    ensures memory { set.new ≡ withdraw_memory set.old photograph }
{
    number(holding::withdraw(set, photograph))
}

// Combines the photographs that are held. The set is only read.
//
// Returns 0 and has filled both buffers, rows times columns bytes each: for each cell the symbol with most votes, the smallest
// where several tie, and as its doubt the full doubt less the whole part of the full doubt times (m - s) / t, where t votes are
// cast, m for that symbol and s for the next. An unread cell casts none; where none is cast the cell is unread, at the full
// doubt. Else leaves both as they were and returns the first that applies, in this order, of
//   1, 2, 3, 13, 4, 5  the plan in the set is refused: never where these calls have made the set
//   6                  `symbols` or `doubts` has not rows times columns bytes
pub fn traymark_set_combine(set: &[u8; SET_BYTES], symbols: &mut [u8], doubts: &mut [u8]) -> u32
    ensures number { result ≡ combine_number set.now symbols.old doubts.old }
    ensures symbols { symbols.new
        ≡ combine_symbols set.now symbols.old doubts.old }
    ensures doubts { doubts.new
        ≡ combine_doubts set.now symbols.old doubts.old }
{
    number(combining::combine(set, symbols, doubts))
}

// Reads the combination as `traymark_read_mark` reads a photograph, under the plan of the set. The set is only read.
//
// Returns what that returns, and fills `record` as that does; where these calls have made the set the number is one of
//   0   the record is the one that costs under the radius
//   6   `record` has not (d + 1)(d + 2) / 2 bytes
//   10  no record of the plan costs under the radius
// Other bytes get what reading gives under the plan that stands in them.
pub fn traymark_set_read(set: &[u8; SET_BYTES], record: &mut [u8]) -> Reading
    ensures reading { result ≡ set_reading set.now «record».old }
    ensures bytes { «record».new ≡ set_record set.now «record».old }
{
    answers::answered(read(set, record))
}

// The plan in the set comes first; only a sound one tells how many cells there are to combine.
fn read(set: &[u8], record: &mut [u8]) -> Result<Reading, Refusal>
    requires { length set.now ≡ set_bytes }
    ensures reading { answered result ≡ set_reading set.now «record».old }
    ensures bytes { «record».new ≡ set_record set.now «record».old }
{
    let said = Plan::try_from(&set[0..PLAN_BYTES])?;
    let n = Mark::cell_count(said);
    let mut symbols = [0u8; 256];
    let mut doubts = [0u8; 256];
    read_by(said, set, &mut symbols[..n], &mut doubts[..n], record)
}

// The combination goes into buffers of its own, and is then read as any photograph.
fn read_by(
    plan: Plan,
    set: &[u8],
    symbols: &mut [u8],
    doubts: &mut [u8],
    record: &mut [u8],
) -> Result<Reading, Refusal>
    requires { (bytes_of plan ≡ set_plan set.now) × (length set.now ≡ set_bytes)
        × (length symbols.old ≡ cells oblong (set_plan set.now)) × (length doubts.old ≡ length symbols.old) }
    ensures reading { answered result ≡ set_reading set.now «record».old }
    ensures bytes { «record».new ≡ set_record set.now «record».old }
{
    combining::cells(set, plan.grid.full as u8, symbols, doubts);
    checks::photograph::<Mark>(plan, symbols, doubts, record)?;
    Mark::read(plan, symbols, doubts, record)
}
