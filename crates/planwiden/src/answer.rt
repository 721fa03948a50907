// The whole answer to an input: plans, or the line of a refusal.
ghost use Rattle.std.specs.Prelude.{◌≡◌, List, ℕ, ◌++◌, ◌*◌, ◌/◌, ◌≤◌, length, take, drop};
ghost use Rattle.definitions.specs.Room.{HoldsFirst};
ghost use Rattle.definitions.specs.Widening.{widen_text};

use definitions::PLAN_BYTES;
use text::Text;
use text::program::first;
use widening::{NARROW_BYTES, widen};

// One byte more than 1,000 plans of 24 bytes, so that an excess is seen.
pub const ROOM: usize = 24001;

// The longest answer: 1,000 plans of 40 bytes.
pub const TEXT: usize = 40000;

// The room for the line of a refusal: REFUSED and a number of at most 10 digits.
const LINE: usize = 19;

// Puts the answer at the start of `text` and returns its length. `space` is the room that the input was read into, and `came` is
// how many bytes came. The bytes in the room decide the answer, and it is that of the whole input, however long that is.
pub fn answer(space: &[u8; ROOM], came: usize, text: &mut [u8; TEXT]) -> usize
    ensures length { result ≡ length (widen_text (take came space.now)) }
    ensures decided { text.new ≡ widen_text (take came space.now) ++ drop result text.old }
    ensures whole { (input : List ℕ) → HoldsFirst input space.now came →
        widen_text (take came space.now) ≡ widen_text input }
{
    answer_input(first(space, came), text)
}

// The plans go where the text begins; a refusal leaves it as it was, for the line. A `Text` of them would take the same room
// twice.
fn answer_input(old: &[u8], text: &mut [u8]) -> usize
    requires { (length old.now / 24 * 40 ≤ length text.old) × (19 ≤ length text.old) }
    ensures length { result ≡ length (widen_text old.now) }
    ensures decided { text.new ≡ widen_text old.now ++ drop result text.old }
{
    let n = old.len() / NARROW_BYTES * PLAN_BYTES;
    match widen(old, &mut text[..n]) {
        Ok(()) => n,
        Err(refusal) => put(Text::<LINE>::refused(refusal.number()).as_bytes(), text),
    }
}

// Puts a line at the start of the text and returns its length.
fn put(line: &[u8], text: &mut [u8]) -> usize
    requires { length line.now ≤ length text.old }
    ensures length { result ≡ length line.now }
    ensures line { text.new ≡ line.now ++ drop result text.old }
{
    text[..line.len()].copy_from_slice(line);
    line.len()
}
