// Masking symbols with the mark or the strip of a record, and taking it off again.
ghost use Rattle.std.specs.Prelude.{◌≡◌};
ghost use Rattle.definitions.specs.Code.{strip, oblong};
ghost use Rattle.definitions.specs.Masking.{on, off as taken_off, mask_number, mask_buffer};
ghost use Rattle.definitions.specs.Numbers.{number_of};

use definitions::{Refusal, number};
use masking::{Off, On, Way};
use plan::Plan;
use plan::kind::{Mark, Strip};
use writing::Write;

// Adds the mark of a record to lent symbols where they stand, for Rattle and through `traymark_c` for C. `plan` and `record` are
// any bytes of any length, and are only read; `symbols` is a mark to be printed or a photographed one, any bytes too.
//
// Returns 0 and has added to each symbol the record's value at that cell's row and column points, modulo p; an unread cell, 255,
// is left alone. Else leaves all of `symbols` as it was and returns the first that applies, in this order, of
//   1, 2, 3, 13, 4, 5  the plan is refused, as by `traymark_check_plan`
//   6                  `record` has not (d + 1)(d + 2) / 2 bytes, or `symbols` has not rows times columns
//   7                  a symbol is p or more and not 255
//   9                  a coefficient is p or more
pub fn traymark_mask_mark(plan: &[u8], record: &[u8], symbols: &mut [u8]) -> u32
    ensures number { result ≡ mask_number oblong plan.now «record».now symbols.old }
    ensures bytes { symbols.new
        ≡ mask_buffer on oblong plan.now «record».now symbols.old }
{
    number(mask::<Mark, On>(plan, record, symbols))
}

// The same for a strip: `record` has d + 1 bytes, lowest power first, and `symbols` has a byte for each row.
pub fn traymark_mask_strip(plan: &[u8], record: &[u8], symbols: &mut [u8]) -> u32
    ensures number { result ≡ mask_number strip plan.now «record».now symbols.old }
    ensures bytes { symbols.new
        ≡ mask_buffer on strip plan.now «record».now symbols.old }
{
    number(mask::<Strip, On>(plan, record, symbols))
}

// Takes the mark of a record off again: subtracts what `traymark_mask_mark` adds, and refuses what that refuses.
pub fn traymark_unmask_mark(plan: &[u8], record: &[u8], symbols: &mut [u8]) -> u32
    ensures number { result ≡ mask_number oblong plan.now «record».now symbols.old }
    ensures bytes { symbols.new
        ≡ mask_buffer taken_off oblong plan.now «record».now symbols.old }
{
    number(mask::<Mark, Off>(plan, record, symbols))
}

// The same for a strip.
pub fn traymark_unmask_strip(plan: &[u8], record: &[u8], symbols: &mut [u8]) -> u32
    ensures number { result ≡ mask_number strip plan.now «record».now symbols.old }
    ensures bytes { symbols.new
        ≡ mask_buffer taken_off strip plan.now «record».now symbols.old }
{
    number(mask::<Strip, Off>(plan, record, symbols))
}

// Both kinds and both ways: the checks come first.
fn mask<K: Write, W: Way>(plan: &[u8], record: &[u8], symbols: &mut [u8]) -> Result<(), Refusal>
    ensures number { number_of result ≡ mask_number K.code plan.now «record».now symbols.old }
    ensures bytes { symbols.new ≡ mask_buffer W.way K.code plan.now «record».now symbols.old }
{
    let said = Plan::try_from(plan)?;
    checks::mask::<K>(said, record, symbols)?;
    masking::mask::<K, W>(said, record, symbols);
    Ok(())
}
