// The whole answer to an input, as text.
ghost use Rattle.std.specs.Prelude.{◌≡◌, List, ℕ, ◌≤◌, length, take};
ghost use Rattle.definitions.specs.Code.{oblong};
ghost use Rattle.definitions.specs.Calls.{measure_reading};
ghost use Rattle.definitions.specs.Explaining.{explain_reason, explain_buffer};
ghost use Rattle.definitions.specs.Tray.{plan_of};
ghost use Rattle.definitions.specs.Room.{HoldsFirst};
ghost use Rattle.plan.specs.Says.{bytes_of};
ghost use Rattle.definitions.specs.Printed.{reason_text, why_text};

use crate::lines;
use definitions::{PLAN_BYTES, Reason, Refusal};
use plan::Plan;
use polynomial::bivariate::{LONGEST, start};
use text::Text;
use text::program::first;
use traymark::explain::explain_mark;
use traymark::measure::traymark_measure_mark;

// One byte more than the longest input, 40 + 136 + 256 + 256, so that an excess is seen.
pub const ROOM: usize = 689;

// The longest answer: 17 bytes of OTHER, and of RECORD 7 and 4 for each coefficient of the longest record.
pub const TEXT: usize = 568;

// `space` is the room that the input was read into, and `came` is how many bytes came. The bytes in the room decide the answer,
// and it is that of the whole input, however long that is.
pub fn answer(space: &[u8; ROOM], came: usize) -> Text<TEXT>
    ensures decided { result ≡ why_text (take came space.now) }
    ensures whole { (input : List ℕ) → HoldsFirst input space.now came →
        why_text (take came space.now) ≡ why_text input }
{
    answer_input(first(space, came))
}

// A plan that is short, or unsound, gets its own number whatever follows.
fn answer_input(input: &[u8]) -> Text<TEXT>
    ensures { result ≡ why_text input.now }
{
    match Plan::try_from(first(input, PLAN_BYTES)) {
        Ok(plan) => answer_parts(plan, input),
        Err(refusal) => Text::refused(refusal.number()),
    }
}

// After a sound plan, another count of bytes is 6.
fn answer_parts(said: Plan, input: &[u8]) -> Text<TEXT>
    requires { bytes_of said ≡ plan_of input.now }
    ensures { result ≡ why_text input.now }
{
    let plan = &input[..PLAN_BYTES];
    let cells = said.grid.a * said.grid.b;
    let size = start(said.grid.d + 1);
    let symbols = PLAN_BYTES + size;
    let doubts = symbols + cells;
    if input.len() != doubts + cells {
        return Text::refused(Refusal::Length.number());
    }
    let mut other = [0u8; LONGEST];
    answer_reason(
        plan,
        &input[PLAN_BYTES..symbols],
        &input[symbols..doubts],
        &input[doubts..],
        &mut other[..size],
    )
}

// The reason for the expected record, and the other record where there is one.
fn answer_reason(
    plan: &[u8],
    record: &[u8],
    symbols: &[u8],
    doubts: &[u8],
    other: &mut [u8],
) -> Text<TEXT>
    requires { length other.old ≤ LONGEST }
    ensures { result ≡ reason_text
        (explain_reason oblong plan.now symbols.now doubts.now «record».now
        other.old)
        (measure_reading oblong plan.now symbols.now doubts.now «record».now)
        (explain_buffer oblong plan.now symbols.now doubts.now «record».now
        other.old) }
{
    match explain_mark(plan, record, symbols, doubts, other) {
        Reason::Refused(number) => Text::refused(number),
        Reason::Answer => lines::answer(traymark_measure_mark(plan, record, symbols, doubts)),
        Reason::Other { place } => lines::other(place, other),
        Reason::Nothing { excess } => lines::none(excess),
    }
}
