// Season plans: checking one, finding one in a plan file, and widening those of the old form.
ghost use Rattle.std.specs.Prelude.{◌≡◌};
ghost use Rattle.definitions.specs.Plan.{check_number};
ghost use Rattle.definitions.specs.Finder.{find_number, find_offset, find_bytes, address_at};
ghost use Rattle.definitions.specs.Widening.{widen_number, widen_buffer};

use definitions::number;

// Checks a plan, for Rattle and through `traymark_c` for C. `plan` is any bytes of any length, and is only read.
//
// Returns 0 where the plan is sound, else the first that applies, in this order, of
//   1   the plan is not 40 bytes, or byte 38 or 39 is not 0
//   2   p, byte 2, is not a prime from 2 to 251
//   3   the rows, byte 3, are 0, above 16 or above p
//   13  the columns, byte 4, are 0, above 16 or above p
//   4   d, byte 5, is not below the smaller side
//   5   a row point is p or more, or not above the one before it, or an unused byte of the sixteen from byte 6 on is not 0; or
//       the same of the column points, from byte 22 on
pub fn traymark_check_plan(plan: &[u8]) -> u32
    ensures { result ≡ check_number plan.now }
{
    number(plan::check(plan))
}

// Finds the first plan of a season in a plan file, for Rattle. `file` is 40-byte records one after another, and is only read;
// only their season bytes are looked at, so the plan that is found may be unsound. `number` is set, whatever it was.
//
// Sets the number to 0 and returns the 40 bytes of the first record of that season, in the order of the file: a part of `file`
// itself, at a multiple of 40. Else returns an empty part, at the start of `file`, and sets the number to the first of
//   11  the file's length is no multiple of 40
//   12  no record has the season; so for an empty file
pub fn find_plan<'a>(file: &'a [u8], season: u16, number: &mut u32) -> &'a [u8]
    ensures number { number.new ≡ find_number file.now season }
    ensures address { result.ref_ptr ≡ address_at file.entry (find_offset file.now season) }
    ensures bytes { result.now ≡ find_bytes file.now season }
{
    match plan::find(file, season) {
        Ok(part) => {
            *number = 0;
            part
        }
        Err(refusal) => {
            *number = refusal.number();
            &file[0..0]
        }
    }
}

// The same for `traymark_c`, since C is handed no part: returns the number, and sets `offset`, whatever it was, to where the 40
// bytes begin in `file`. On a refusal `offset` is set to 0.
pub fn traymark_find_plan(file: &[u8], season: u16, offset: &mut usize) -> u32
    ensures number { result ≡ find_number file.now season }
    ensures offset { offset.new ≡ find_offset file.now season }
{
    match plan::locate(file, season) {
        Ok(at) => {
            *offset = at;
            0
        }
        Err(refusal) => {
            *offset = 0;
            refusal.number()
        }
    }
}

// Widens plans of the old form, for Rattle and through `traymark_c` for C. `old` is 24-byte records one after another, and is
// only read: season, p, n, d, sixteen points, three bytes that are dropped. No plan is checked: an unsound one is widened all the
// same.
//
// Returns 0 and has filled `wide` with a plan of 40 bytes for each of them, in order: n and the points are given twice, for the
// rows and for the columns, season, p and d are kept, and the last two bytes are 0. Else leaves `wide` as it was and returns the
// first of
//   11  `old` has more than 1,000 records, or its length is no multiple of 24
//   6   `wide` has not 40 bytes for each 24 of `old`
pub fn traymark_widen_plans(old: &[u8], wide: &mut [u8]) -> u32
    ensures number { result ≡ widen_number old.now wide.old }
    ensures buffer { wide.new ≡ widen_buffer old.now wide.old }
{
    number(widening::widen(old, wide))
}
