// The whole answer to an input, as text.
ghost use Rattle.std.specs.Prelude.{◌≡◌, List, ℕ, ◌≤◌, length, take};
ghost use Rattle.definitions.specs.Code.{oblong};
ghost use Rattle.definitions.specs.Calls.{read_reading, read_buffer};
ghost use Rattle.definitions.specs.Tray.{plan_of};
ghost use Rattle.definitions.specs.Room.{HoldsFirst};
ghost use Rattle.plan.specs.Says.{bytes_of};
ghost use Rattle.definitions.specs.Printed.{answer_text, tray_text};

use crate::lines;
use definitions::{PLAN_BYTES, Refusal};
use plan::Plan;
use polynomial::bivariate::{LONGEST, start};
use text::Text;
use text::program::first;
use traymark::read::traymark_read_mark;

// One byte more than the longest input, 40 + 256 + 256, so that an excess is seen.
pub const ROOM: usize = 553;

// The longest answer: 72 bytes of READ, and of RECORD 7 and 4 for each coefficient of the longest record.
pub const TEXT: usize = 623;

// `space` is the room that the input was read into, and `came` is how many bytes came. The bytes in the room decide the answer,
// and it is that of the whole input, however long that is.
pub fn answer(space: &[u8; ROOM], came: usize) -> Text<TEXT>
    ensures decided { result ≡ tray_text (take came space.now) }
    ensures whole { (input : List ℕ) → HoldsFirst input space.now came →
        tray_text (take came space.now) ≡ tray_text input }
{
    answer_input(first(space, came))
}

// A plan that is short, or unsound, gets its own number whatever follows.
fn answer_input(input: &[u8]) -> Text<TEXT>
    ensures { result ≡ tray_text input.now }
{
    match Plan::try_from(first(input, PLAN_BYTES)) {
        Ok(plan) => answer_photo(plan, input),
        Err(refusal) => Text::refused(refusal.number()),
    }
}

// After a sound plan, another count of bytes is 6.
fn answer_photo(said: Plan, input: &[u8]) -> Text<TEXT>
    requires { bytes_of said ≡ plan_of input.now }
    ensures { result ≡ tray_text input.now }
{
    let plan = &input[..PLAN_BYTES];
    let cells = said.grid.a * said.grid.b;
    let end = PLAN_BYTES + cells;
    if input.len() != end + cells {
        return Text::refused(Refusal::Length.number());
    }
    let mut record = [0u8; LONGEST];
    let size = start(said.grid.d + 1);
    answer_mark(
        u32::from(said.season),
        plan,
        &input[PLAN_BYTES..end],
        &input[end..],
        &mut record[..size],
    )
}

// Reads the mark of a season into the lent record.
fn answer_mark(
    season: u32,
    plan: &[u8],
    symbols: &[u8],
    doubts: &[u8],
    record: &mut [u8],
) -> Text<TEXT>
    requires { length «record».old ≤ LONGEST }
    ensures { result ≡ answer_text season
        (read_reading oblong plan.now symbols.now doubts.now «record».old)
        (read_buffer oblong plan.now symbols.now doubts.now «record».old) }
{
    let reading = traymark_read_mark(plan, symbols, doubts, record);
    if reading.number != 0 {
        return Text::refused(reading.number);
    }
    let mut text = Text::new();
    lines::put_read(&mut text, season, reading);
    text.put_record(record);
    text
}
