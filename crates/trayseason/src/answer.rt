// The whole answer to an argument and an input: the season, or the line of a refusal.
ghost use Rattle.std.specs.Prelude.{◌≡◌, List, ℕ, take};
ghost use Rattle.definitions.specs.Room.{HoldsFirst};
ghost use Rattle.definitions.specs.Dated.{date_text, season_text};

use crate::date;
use calendar::Date;
use text::Text;
use text::program::first;

// One byte more than 64 windows of 12 bytes, so that an excess is seen.
pub const ROOM: usize = 769;

// Room for REFUSED and a number of at most 10 digits.
pub const TEXT: usize = 19;

// The answer: no text where the argument `word` has not the form of a date. `space` is the room that the input was read into,
// and `came` is how many bytes came. The bytes in the room decide the answer, and it is that of the whole input, however long
// that is.
pub fn answer(word: &[u8], space: &[u8; ROOM], came: usize) -> Text<TEXT>
    ensures decided { result ≡ season_text word.now (take came space.now) }
    ensures whole { (input : List ℕ) → HoldsFirst input space.now came →
        season_text word.now (take came space.now) ≡ season_text word.now input }
{
    if !date::is_dated(word) {
        return Text::new();
    }
    answer_date(date::asked_date(word), first(space, came))
}

// The season of the date, or the refusal.
fn answer_date(date: Date, file: &[u8]) -> Text<TEXT>
    ensures { result ≡ date_text date file.now }
{
    match windows::find(file, date) {
        Ok(season) => {
            let mut text = Text::new();
            text.put_natural(u32::from(season));
            text.put_byte(b'\n');
            text
        }
        Err(refusal) => Text::refused(refusal.number()),
    }
}
