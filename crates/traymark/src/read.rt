// Reading a photographed mark or strip: the one record within the radius, or refusal 10 where there is none.
ghost use Rattle.std.specs.Prelude.{◌≡◌};
ghost use Rattle.definitions.specs.Code.{strip, oblong};
ghost use Rattle.definitions.specs.Calls.{read_reading, read_buffer};
ghost use Rattle.definitions.specs.Numbers.{answered};

use definitions::{Reading, Refusal};
use plan::Plan;
use plan::kind::{Mark, Strip};
use reading::Read;

// Reads a photographed mark, for Rattle and through `traymark_c` for C.
// `plan`, `symbols` and `doubts` are any bytes of any length, and are only read.
//
// Returns number 0 with the cost, the margin, the changed and the unread count and the class of the one record that costs under
// the radius, the full doubt times the larger side times (the smaller side - d), and has filled `record` with its
// (d + 1)(d + 2) / 2 coefficients, by total degree and then by rising power of Y. Else leaves `record` as it was, and all but the
// number is 0; that is the first that applies, in this order, of
//   1, 2, 3, 13, 4, 5  the plan is refused, as by `traymark_check_plan`
//   6                  `symbols` or `doubts` has not rows times columns bytes, or `record` has not (d + 1)(d + 2) / 2
//   7                  a symbol is p or more and not 255
//   8                  a doubt is above the full doubt, which is 100 before season 30 and 250 from it on, or an unread
//                      cell's is not the full doubt
//   10                 no record of the plan costs under the radius
pub fn traymark_read_mark(plan: &[u8], symbols: &[u8], doubts: &[u8], record: &mut [u8]) -> Reading
    ensures reading { result
        ≡ read_reading oblong plan.now symbols.now doubts.now «record».old }
    ensures bytes { «record».new
        ≡ read_buffer oblong plan.now symbols.now doubts.now «record».old }
{
    answers::answered(read::<Mark>(plan, symbols, doubts, record))
}

// The same for a strip: `record` has d + 1 bytes, lowest power first, `symbols` and `doubts` have a byte for each row, and the
// radius is the full doubt times (rows - d).
pub fn traymark_read_strip(plan: &[u8], symbols: &[u8], doubts: &[u8], record: &mut [u8]) -> Reading
    ensures reading { result
        ≡ read_reading strip plan.now symbols.now doubts.now «record».old }
    ensures bytes { «record».new
        ≡ read_buffer strip plan.now symbols.now doubts.now «record».old }
{
    answers::answered(read::<Strip>(plan, symbols, doubts, record))
}

// Both kinds: the checks come first.
fn read<K: Read>(
    plan: &[u8],
    symbols: &[u8],
    doubts: &[u8],
    record: &mut [u8],
) -> Result<Reading, Refusal>
    ensures reading { answered result ≡ read_reading K.code plan.now symbols.now doubts.now «record».old }
    ensures bytes { «record».new ≡ read_buffer K.code plan.now symbols.now doubts.now «record».old }
{
    let said = Plan::try_from(plan)?;
    checks::photograph::<K>(said, symbols, doubts, record)?;
    K::read(said, symbols, doubts, record)
}
