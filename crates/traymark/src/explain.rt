// Explaining why a record that was expected did not come up: it is the answer, or another record is, or none is.
ghost use Rattle.std.specs.Prelude.{◌≡◌};
ghost use Rattle.definitions.specs.Code.{strip, oblong};
ghost use Rattle.definitions.specs.Explaining.{explain_reason, explain_buffer, values_of};
ghost use Rattle.definitions.specs.Numbers.{reason_of};

use definitions::{Explanation, Reason, Refusal};
use measuring::Measure;
use plan::Plan;
use plan::kind::{Mark, Strip};
use reading::Read;
use writing::Write;

// Explains a photographed mark against the record that was expected, for Rattle. `plan`, `record`, `symbols` and `doubts` are any
// bytes of any length, and are only read; `record` is the expected one, and `other` is lent for another.
//
// Returns one of
//   Answer              `record` is the answer: it costs under the radius
//   Other { place }     another record is: it fills `other`, and `place` is the lowest at which the two marks differ
//   Nothing { excess }  no record costs under the radius; `excess` is the cost of `record` less the radius, 0 or more
//   Refused(number)     the first that applies, in this order, of
//     1, 2, 3, 13, 4, 5  the plan is refused, as by `traymark_check_plan`
//     6                  `symbols` or `doubts` has not rows times columns bytes, or `record` or `other` has not
//                        (d + 1)(d + 2) / 2
//     7                  a symbol is p or more and not 255
//     8                  a doubt is above the full doubt, which is 100 before season 30 and 250 from it on, or an unread
//                        cell's is not the full doubt
//     9                  a coefficient of `record` is p or more
// Only in the second case is `other` written.
pub fn explain_mark(
    plan: &[u8],
    record: &[u8],
    symbols: &[u8],
    doubts: &[u8],
    other: &mut [u8],
) -> Reason
    ensures reason { result ≡ explain_reason oblong plan.now symbols.now doubts.now
        «record».now other.old }
    ensures buffer { other.new ≡ explain_buffer oblong plan.now symbols.now
        doubts.now «record».now other.old }
{
    explain::<Mark>(plan, record, symbols, doubts, other)
}

// The same for a strip: `record` and `other` have d + 1 bytes, lowest power first, `symbols` and `doubts` have a byte for each
// row.
pub fn explain_strip(
    plan: &[u8],
    record: &[u8],
    symbols: &[u8],
    doubts: &[u8],
    other: &mut [u8],
) -> Reason
    ensures reason { result ≡ explain_reason strip plan.now symbols.now doubts.now
        «record».now other.old }
    ensures buffer { other.new ≡ explain_buffer strip plan.now symbols.now
        doubts.now «record».now other.old }
{
    explain::<Strip>(plan, record, symbols, doubts, other)
}

// `explain_mark` for `traymark_c`, since C is handed no enum: number 0 with reason 1, 2 or 3, in the order above, and with its
// place or excess; or the number of the refusal with reason 0. What a case does not give is 0.
pub fn traymark_explain_mark(
    plan: &[u8],
    record: &[u8],
    symbols: &[u8],
    doubts: &[u8],
    other: &mut [u8],
) -> Explanation
    ensures values { result ≡ values_of (explain_reason oblong plan.now symbols.now doubts.now
        «record».now other.old) }
    ensures buffer { other.new ≡ explain_buffer oblong plan.now symbols.now
        doubts.now «record».now other.old }
{
    Explanation::from(explain::<Mark>(plan, record, symbols, doubts, other))
}

// `explain_strip` for `traymark_c`.
pub fn traymark_explain_strip(
    plan: &[u8],
    record: &[u8],
    symbols: &[u8],
    doubts: &[u8],
    other: &mut [u8],
) -> Explanation
    ensures values { result ≡ values_of (explain_reason strip plan.now symbols.now doubts.now
        «record».now other.old) }
    ensures buffer { other.new ≡ explain_buffer strip plan.now symbols.now
        doubts.now «record».now other.old }
{
    Explanation::from(explain::<Strip>(plan, record, symbols, doubts, other))
}

// Both kinds; a refusal is one of the reasons.
fn explain<K: Write + Measure + Read>(
    plan: &[u8],
    record: &[u8],
    symbols: &[u8],
    doubts: &[u8],
    other: &mut [u8],
) -> Reason
    ensures reason { result ≡ explain_reason K.code plan.now symbols.now doubts.now «record».now other.old }
    ensures buffer { other.new ≡ explain_buffer K.code plan.now symbols.now doubts.now «record».now other.old }
{
    match explain_checked::<K>(plan, record, symbols, doubts, other) {
        Ok(reason) => reason,
        Err(refusal) => Reason::Refused(refusal.number()),
    }
}

// The checks come first.
fn explain_checked<K: Write + Measure + Read>(
    plan: &[u8],
    record: &[u8],
    symbols: &[u8],
    doubts: &[u8],
    other: &mut [u8],
) -> Result<Reason, Refusal>
    ensures reason { reason_of result ≡ explain_reason K.code plan.now symbols.now doubts.now «record».now other.old }
    ensures buffer { other.new ≡ explain_buffer K.code plan.now symbols.now doubts.now «record».now other.old }
{
    let said = Plan::try_from(plan)?;
    checks::explain::<K>(said, symbols, doubts, record, other)?;
    Ok(explaining::explain::<K>(said, record, symbols, doubts, other))
}
