// Several photographs of one tray: a set of them, in memory that the caller lends.
ghost use Rattle.std.specs.Prelude.{◌≡◌};
ghost use Rattle.definitions.specs.Plan.{check_number};
ghost use Rattle.definitions.specs.Sets.{set_bytes, start_memory, add_number, add_memory};
ghost use Rattle.definitions.specs.Sets.{withdraw_number, withdraw_memory, combine_number, combine_symbols, combine_doubts};
ghost use Rattle.definitions.specs.Sets.{set_reading, set_record};

use definitions::{Reading, SET_BYTES};

#[unsafe(no_mangle)]
pub extern "C" fn traymark_set_size() -> usize
    ensures { result ≡ set_bytes }
{
    traymark::photographs::traymark_set_size()
}

#[unsafe(no_mangle)]
pub extern "C" fn traymark_set_start(set: &mut [u8; SET_BYTES], plan: &[u8]) -> u32
    ensures number { result ≡ check_number plan.now }
    ensures memory { set.new ≡ start_memory plan.now set.old }
{
    traymark::photographs::traymark_set_start(set, plan)
}

#[unsafe(no_mangle)]
pub extern "C" fn traymark_set_add(
    set: &mut [u8; SET_BYTES],
    photograph: u32,
    symbols: &[u8],
    doubts: &[u8],
) -> u32
    ensures number { result ≡ add_number set.old photograph symbols.now doubts.now }
    ensures memory { set.new
        ≡ add_memory set.old photograph symbols.now doubts.now }
{
    traymark::photographs::traymark_set_add(set, photograph, symbols, doubts)
}

#[unsafe(no_mangle)]
pub extern "C" fn traymark_set_withdraw(set: &mut [u8; SET_BYTES], photograph: u32) -> u32
    ensures number { result ≡ withdraw_number set.old photograph }
    ensures memory { set.new ≡ withdraw_memory set.old photograph }
{
    traymark::photographs::traymark_set_withdraw(set, photograph)
}

#[unsafe(no_mangle)]
pub extern "C" fn traymark_set_combine(
    set: &[u8; SET_BYTES],
    symbols: &mut [u8],
    doubts: &mut [u8],
) -> u32
    ensures number { result ≡ combine_number set.now symbols.old doubts.old }
    ensures symbols { symbols.new
        ≡ combine_symbols set.now symbols.old doubts.old }
    ensures doubts { doubts.new
        ≡ combine_doubts set.now symbols.old doubts.old }
{
    traymark::photographs::traymark_set_combine(set, symbols, doubts)
}

#[unsafe(no_mangle)]
pub extern "C" fn traymark_set_read(set: &[u8; SET_BYTES], record: &mut [u8]) -> Reading
    ensures reading { result ≡ set_reading set.now «record».old }
    ensures bytes { «record».new ≡ set_record set.now «record».old }
{
    traymark::photographs::traymark_set_read(set, record)
}
