// The first line of a reading.
ghost use Rattle.std.specs.Prelude.{◌≡◌, [], ◌∷◌, ◌++◌, ◌+◌, ◌≤◌, length};
ghost use Rattle.definitions.specs.Printed.{spaced, read_line};

use crate::answer::TEXT;
use definitions::Reading;
use text::Text;

// READ, five numbers of at most 10 digits, and one of at most 11 characters.
pub fn put_read(text: &mut Text<TEXT>, season: u32, reading: Reading)
    requires { length text.old + 72 ≤ TEXT }
    ensures line { text.new ≡ text.old ++ read_line season reading }
    ensures most { length text.new ≤ length text.old + 72 }
{
    text.put_bytes(b"READ");
    put_counts(text, season, reading);
    text.put_costs(reading);
}

// The four numbers before the cost.
fn put_counts(text: &mut Text<TEXT>, season: u32, reading: Reading)
    requires { length text.old + 44 ≤ TEXT }
    ensures numbers { text.new
        ≡ text.old ++ spaced (season ∷ reading.changed ∷ reading.unread ∷ reading.class ∷ []) }
    ensures most { length text.new ≤ length text.old + 44 }
{
    text.put_spaced(season);
    text.put_spaced(reading.changed);
    text.put_spaced(reading.unread);
    text.put_spaced(reading.class);
}
