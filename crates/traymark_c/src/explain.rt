// Explaining why a record that was expected did not come up.
ghost use Rattle.std.specs.Prelude.{◌≡◌};
ghost use Rattle.definitions.specs.Code.{strip, oblong};
ghost use Rattle.definitions.specs.Explaining.{explain_reason, explain_buffer, values_of};

use definitions::Explanation;

#[unsafe(no_mangle)]
pub extern "C" fn traymark_explain_mark(
    plan: &[u8],
    record: &[u8],
    symbols: &[u8],
    doubts: &[u8],
    other: &mut [u8],
) -> Explanation
    ensures values { result ≡ values_of (explain_reason oblong plan.now symbols.now doubts.now
        «record».now other.old) }
    ensures buffer { other.new ≡ explain_buffer oblong plan.now symbols.now
        doubts.now «record».now other.old }
{
    traymark::explain::traymark_explain_mark(plan, record, symbols, doubts, other)
}

#[unsafe(no_mangle)]
pub extern "C" fn traymark_explain_strip(
    plan: &[u8],
    record: &[u8],
    symbols: &[u8],
    doubts: &[u8],
    other: &mut [u8],
) -> Explanation
    ensures values { result ≡ values_of (explain_reason strip plan.now symbols.now doubts.now
        «record».now other.old) }
    ensures buffer { other.new ≡ explain_buffer strip plan.now symbols.now
        doubts.now «record».now other.old }
{
    traymark::explain::traymark_explain_strip(plan, record, symbols, doubts, other)
}
