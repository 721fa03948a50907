// The season of a date, by a file of season windows.
ghost use Rattle.std.specs.Prelude.{◌≡◌};
ghost use Rattle.calendar.specs.Calendar.{date};
ghost use Rattle.definitions.specs.Windows.{season_number, season_found};

#[unsafe(no_mangle)]
pub extern "C" fn traymark_find_season(
    file: &[u8],
    year: u32,
    month: u32,
    day: u32,
    season: &mut u16,
) -> u32
    ensures number { result ≡ season_number file.now (date year month day) }
    ensures season { season.new ≡ season_found file.now (date year month day) }
{
    traymark::seasons::traymark_find_season(file, year, month, day, season)
}
