// Masking symbols with the mark or the strip of a record, and taking it off again.
ghost use Rattle.std.specs.Prelude.{◌≡◌};
ghost use Rattle.definitions.specs.Code.{strip, oblong};
ghost use Rattle.definitions.specs.Masking.{on, off as taken_off, mask_number, mask_buffer};

#[unsafe(no_mangle)]
pub extern "C" fn traymark_mask_mark(plan: &[u8], record: &[u8], symbols: &mut [u8]) -> u32
    ensures number { result ≡ mask_number oblong plan.now «record».now symbols.old }
    ensures bytes { symbols.new
        ≡ mask_buffer on oblong plan.now «record».now symbols.old }
{
    traymark::mask::traymark_mask_mark(plan, record, symbols)
}

#[unsafe(no_mangle)]
pub extern "C" fn traymark_mask_strip(plan: &[u8], record: &[u8], symbols: &mut [u8]) -> u32
    ensures number { result ≡ mask_number strip plan.now «record».now symbols.old }
    ensures bytes { symbols.new
        ≡ mask_buffer on strip plan.now «record».now symbols.old }
{
    traymark::mask::traymark_mask_strip(plan, record, symbols)
}

#[unsafe(no_mangle)]
pub extern "C" fn traymark_unmask_mark(plan: &[u8], record: &[u8], symbols: &mut [u8]) -> u32
    ensures number { result ≡ mask_number oblong plan.now «record».now symbols.old }
    ensures bytes { symbols.new
        ≡ mask_buffer taken_off oblong plan.now «record».now symbols.old }
{
    traymark::mask::traymark_unmask_mark(plan, record, symbols)
}

#[unsafe(no_mangle)]
pub extern "C" fn traymark_unmask_strip(plan: &[u8], record: &[u8], symbols: &mut [u8]) -> u32
    ensures number { result ≡ mask_number strip plan.now «record».now symbols.old }
    ensures bytes { symbols.new
        ≡ mask_buffer taken_off strip plan.now «record».now symbols.old }
{
    traymark::mask::traymark_unmask_strip(plan, record, symbols)
}
