// The lines of a reason that is no refusal.
ghost use Rattle.std.specs.Prelude.{◌≡◌, ◌++◌, ◌≤◌, length};
ghost use Rattle.definitions.specs.Printed.{answer_line, other_line, none_line, record_line};

use crate::answer::TEXT;
use definitions::Reading;
use polynomial::bivariate::LONGEST;
use text::Text;

// ANSWER, a number of at most 10 digits, and one of at most 11 characters.
pub fn answer(reading: Reading) -> Text<TEXT>
    ensures { result ≡ answer_line reading }
{
    let mut text = Text::new();
    text.put_bytes(b"ANSWER");
    text.put_costs(reading);
    text
}

// OTHER and a number of at most 10 digits, then the record.
pub fn other(place: u32, record: &[u8]) -> Text<TEXT>
    requires { length «record».now ≤ LONGEST }
    ensures { result ≡ other_line place ++ record_line «record».now }
{
    let mut text = Text::new();
    text.put_line(b"OTHER", place);
    text.put_record(record);
    text
}

// NONE and a number of at most 10 digits.
pub fn none(excess: u32) -> Text<TEXT>
    ensures { result ≡ none_line excess }
{
    let mut text = Text::new();
    text.put_line(b"NONE", excess);
    text
}
