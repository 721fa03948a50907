// Measuring a record against a photographed mark or strip.
ghost use Rattle.std.specs.Prelude.{◌≡◌};
ghost use Rattle.definitions.specs.Code.{strip, oblong};
ghost use Rattle.definitions.specs.Calls.{measure_reading};

use definitions::Reading;

#[unsafe(no_mangle)]
pub extern "C" fn traymark_measure_mark(
    plan: &[u8],
    record: &[u8],
    symbols: &[u8],
    doubts: &[u8],
) -> Reading
    ensures { result
        ≡ measure_reading oblong plan.now symbols.now doubts.now «record».now }
{
    traymark::measure::traymark_measure_mark(plan, record, symbols, doubts)
}

#[unsafe(no_mangle)]
pub extern "C" fn traymark_measure_strip(
    plan: &[u8],
    record: &[u8],
    symbols: &[u8],
    doubts: &[u8],
) -> Reading
    ensures { result
        ≡ measure_reading strip plan.now symbols.now doubts.now «record».now }
{
    traymark::measure::traymark_measure_strip(plan, record, symbols, doubts)
}
