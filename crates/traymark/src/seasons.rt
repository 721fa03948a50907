// The season of a date, by a file of season windows.
ghost use Rattle.std.specs.Prelude.{◌≡◌};
ghost use Rattle.calendar.specs.Calendar.{date};
ghost use Rattle.definitions.specs.Windows.{season_number, season_found};

use calendar::Date;

// Finds the season of a date in a window file, for Rattle and through `traymark_c` for C. `file` is windows of 12 bytes one after
// another, at most 64 and in no set order, and is only read: season, first date, last date, two zeros. A date there is a year in
// two bytes, 1900 to 2199, a month and a day; seasons and years have the high byte first. Both end days belong to a window. The
// date asked for is any three numbers. `season` is set, whatever it was.
//
// Returns 0 and sets `season` to that of the window that has the day. Else sets it to 0 and returns the first of
//   14  the file's length is no multiple of 12, it has more than 64 windows, a date in it is unreal, a last date is before its
//       first, or one of a window's last two bytes is not 0
//   15  two windows share a day, whatever their seasons
//   16  the date asked for is unreal or in no window; so every date for an empty file
pub fn traymark_find_season(file: &[u8], year: u32, month: u32, day: u32, season: &mut u16) -> u32
    ensures number { result ≡ season_number file.now (date year month day) }
    ensures season { season.new ≡ season_found file.now (date year month day) }
{
    match windows::find(file, Date { year, month, day }) {
        Ok(found) => {
            *season = found;
            0
        }
        Err(refusal) => {
            *season = 0;
            refusal.number()
        }
    }
}
