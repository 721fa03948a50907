// Measuring a record against a photographed mark or strip.
ghost use Rattle.std.specs.Prelude.{◌≡◌};
ghost use Rattle.definitions.specs.Code.{strip, oblong};
ghost use Rattle.definitions.specs.Calls.{measure_reading};
ghost use Rattle.definitions.specs.Numbers.{answered};

use definitions::{Reading, Refusal};
use measuring::Measure;
use plan::Plan;
use plan::kind::{Mark, Strip};

// Measures a record against a photographed mark, for Rattle and through `traymark_c` for C. All four are any bytes of any length,
// and are only read.
//
// Returns number 0, the record's cost D, the margin R - D, the changed and the unread count, and the class by the changed count.
// A margin of 0 or below is returned as such: measuring never gives 10. Else all but the number is 0, and that is the first that
// applies, in this order, of
//   1, 2, 3, 13, 4, 5  the plan is refused, as by `traymark_check_plan`
//   6                  `symbols` or `doubts` has not rows times columns bytes, or `record` has not (d + 1)(d + 2) / 2
//   7                  a symbol is p or more and not 255
//   8                  a doubt is above the full doubt, which is 100 before season 30 and 250 from it on, or an unread
//                      cell's is not the full doubt
//   9                  a coefficient is p or more
pub fn traymark_measure_mark(plan: &[u8], record: &[u8], symbols: &[u8], doubts: &[u8]) -> Reading
    ensures { result
        ≡ measure_reading oblong plan.now symbols.now doubts.now «record».now }
{
    answers::answered(measure::<Mark>(plan, record, symbols, doubts))
}

// The same for a strip: `record` has d + 1 bytes, lowest power first, `symbols` and `doubts` have a byte for each row.
pub fn traymark_measure_strip(plan: &[u8], record: &[u8], symbols: &[u8], doubts: &[u8]) -> Reading
    ensures { result
        ≡ measure_reading strip plan.now symbols.now doubts.now «record».now }
{
    answers::answered(measure::<Strip>(plan, record, symbols, doubts))
}

// Both kinds: the checks come first.
fn measure<K: Measure>(
    plan: &[u8],
    record: &[u8],
    symbols: &[u8],
    doubts: &[u8],
) -> Result<Reading, Refusal>
    ensures { answered result ≡ measure_reading K.code plan.now symbols.now doubts.now «record».now }
{
    let said = Plan::try_from(plan)?;
    checks::measure::<K>(said, symbols, doubts, record)?;
    Ok(K::measure(said, record, symbols, doubts))
}
