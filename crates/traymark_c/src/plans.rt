// Season plans: checking one, finding one in a plan file, and widening those of the old form.
ghost use Rattle.std.specs.Prelude.{◌≡◌};
ghost use Rattle.definitions.specs.Plan.{check_number};
ghost use Rattle.definitions.specs.Finder.{find_number, find_offset};
ghost use Rattle.definitions.specs.Widening.{widen_number, widen_buffer};

#[unsafe(no_mangle)]
pub extern "C" fn traymark_check_plan(plan: &[u8]) -> u32
    ensures { result ≡ check_number plan.now }
{
    traymark::plans::traymark_check_plan(plan)
}

#[unsafe(no_mangle)]
pub extern "C" fn traymark_find_plan(file: &[u8], season: u16, offset: &mut usize) -> u32
    ensures number { result ≡ find_number file.now season }
    ensures offset { offset.new ≡ find_offset file.now season }
{
    traymark::plans::traymark_find_plan(file, season, offset)
}

#[unsafe(no_mangle)]
pub extern "C" fn traymark_widen_plans(old: &[u8], wide: &mut [u8]) -> u32
    ensures number { result ≡ widen_number old.now wide.old }
    ensures buffer { wide.new ≡ widen_buffer old.now wide.old }
{
    traymark::plans::traymark_widen_plans(old, wide)
}
