// Writing the mark or the strip of a record.
ghost use Rattle.std.specs.Prelude.{◌≡◌};
ghost use Rattle.definitions.specs.Code.{strip as strip_code, oblong};
ghost use Rattle.definitions.specs.Calls.{write_number, write_buffer};
ghost use Rattle.definitions.specs.Numbers.{number_of};

use definitions::{Refusal, number};
use plan::Plan;
use plan::kind::{Mark, Strip};
use writing::Write;

// Writes the mark of a record, for Rattle and through `traymark_c` for C. `plan` and `record` are any bytes of any length, and
// are only read.
//
// Returns 0 and has filled `mark`, rows times columns bytes: the value at the i-th row point and the j-th column point, modulo p,
// is at i columns + j. Else leaves `mark` as it was and returns the first that applies, in this order, of
//   1, 2, 3, 13, 4, 5  the plan is refused, as by `traymark_check_plan`
//   6                  `record` has not (d + 1)(d + 2) / 2 bytes, or `mark` has not rows times columns
//   9                  a coefficient is p or more
pub fn traymark_write_mark(plan: &[u8], record: &[u8], mark: &mut [u8]) -> u32
    ensures number { result ≡ write_number oblong plan.now «record».now mark.old }
    ensures bytes { mark.new
        ≡ write_buffer oblong plan.now «record».now mark.old }
{
    number(write::<Mark>(plan, record, mark))
}

// The same for a strip: `record` has d + 1 bytes, lowest power first, and `strip` has a byte for each row, of which the i-th is
// the value at the i-th row point.
pub fn traymark_write_strip(plan: &[u8], record: &[u8], strip: &mut [u8]) -> u32
    ensures number { result ≡ write_number strip_code plan.now «record».now strip.old }
    ensures bytes { strip.new
        ≡ write_buffer strip_code plan.now «record».now strip.old }
{
    number(write::<Strip>(plan, record, strip))
}

// Both kinds: the checks come first.
fn write<K: Write>(plan: &[u8], record: &[u8], cells: &mut [u8]) -> Result<(), Refusal>
    ensures number { number_of result ≡ write_number K.code plan.now «record».now cells.old }
    ensures bytes { cells.new ≡ write_buffer K.code plan.now «record».now cells.old }
{
    let said = Plan::try_from(plan)?;
    checks::write::<K>(said, record, cells)?;
    K::write(said, record, cells);
    Ok(())
}
