// Reading a photographed mark or strip.
ghost use Rattle.std.specs.Prelude.{◌≡◌};
ghost use Rattle.definitions.specs.Code.{strip, oblong};
ghost use Rattle.definitions.specs.Calls.{read_reading, read_buffer};

use definitions::Reading;

#[unsafe(no_mangle)]
pub extern "C" fn traymark_read_mark(
    plan: &[u8],
    symbols: &[u8],
    doubts: &[u8],
    record: &mut [u8],
) -> Reading
    ensures reading { result
        ≡ read_reading oblong plan.now symbols.now doubts.now «record».old }
    ensures bytes { «record».new
        ≡ read_buffer oblong plan.now symbols.now doubts.now «record».old }
{
    traymark::read::traymark_read_mark(plan, symbols, doubts, record)
}

#[unsafe(no_mangle)]
pub extern "C" fn traymark_read_strip(
    plan: &[u8],
    symbols: &[u8],
    doubts: &[u8],
    record: &mut [u8],
) -> Reading
    ensures reading { result
        ≡ read_reading strip plan.now symbols.now doubts.now «record».old }
    ensures bytes { «record».new
        ≡ read_buffer strip plan.now symbols.now doubts.now «record».old }
{
    traymark::read::traymark_read_strip(plan, symbols, doubts, record)
}
