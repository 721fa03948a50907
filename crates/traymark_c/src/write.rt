// Writing the mark or the strip of a record.
ghost use Rattle.std.specs.Prelude.{◌≡◌};
ghost use Rattle.definitions.specs.Code.{strip as strip_code, oblong};
ghost use Rattle.definitions.specs.Calls.{write_number, write_buffer};

#[unsafe(no_mangle)]
pub extern "C" fn traymark_write_mark(plan: &[u8], record: &[u8], mark: &mut [u8]) -> u32
    ensures number { result ≡ write_number oblong plan.now «record».now mark.old }
    ensures bytes { mark.new
        ≡ write_buffer oblong plan.now «record».now mark.old }
{
    traymark::write::traymark_write_mark(plan, record, mark)
}

#[unsafe(no_mangle)]
pub extern "C" fn traymark_write_strip(plan: &[u8], record: &[u8], strip: &mut [u8]) -> u32
    ensures number { result ≡ write_number strip_code plan.now «record».now strip.old }
    ensures bytes { strip.new
        ≡ write_buffer strip_code plan.now «record».now strip.old }
{
    traymark::write::traymark_write_strip(plan, record, strip)
}
