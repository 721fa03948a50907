// Bytes as numbers, lent bytes as rows of them, numbers as bytes, and a test of bytes.
#![tactic(auto, using(crate::proofs::Row::filled_list))]

ghost use Rattle.std.specs.Prelude.{◌≡◌, ℕ, ◌+◌, ◌*◌, ◌≤◌, ◌<◌, length};
ghost use Rattle.bounded.specs.Bounded.{at, tab};
ghost use Rattle.field.specs.Row.{row as row_of};
ghost use Rattle.field.specs.Loop.{Passed};
ghost use Rattle.field.specs.Word.{reached};

// Two bytes as a number, the high one first.
pub fn pair(high: u8, low: u8) -> u16
    ensures { result ≡ high * 256 + low }
{
    u16::from_be_bytes([high, low])
}

// At most sixteen bytes as wider numbers, `zero` beyond their end.
fn widened<T: From<u8> + Copy>(bytes: &[u8], zero: T) -> [T; 16]
    requires { length bytes.now ≤ 16 }
    ensures { Passed 16 zero (λ _ v. v ≡ zero) (λ j v. T.from_gives (at bytes.now j) v) result (length bytes.now) }
{
    let mut out = [zero; 16];
    for (i, byte) in bytes.iter().enumerate() {
        out[i] = T::from(*byte);
    }
    out
}

// At most sixteen bytes as a row, 0 beyond their end.
pub fn row(bytes: &[u8]) -> [u16; 16]
    requires { length bytes.now ≤ 16 }
    ensures { result ≡ row_of (at bytes.now) }
{
    widened(bytes, 0)
}

// The same as wider numbers: doubts grow past 16 bits inside a reader.
pub fn wide_row(bytes: &[u8]) -> [u32; 16]
    requires { length bytes.now ≤ 16 }
    ensures { result ≡ row_of (at bytes.now) }
{
    widened(bytes, 0)
}

// Fills the part with the first of the numbers, as many as it has bytes.
pub fn store(part: &mut [u8], numbers: &[u16])
    requires { (length part.old ≤ length numbers.now) × ((j : ℕ) → j < length part.old → at numbers.now j < 256) }
    ensures { part.new ≡ tab (length part.old) (at numbers.now) }
{
    for (j, byte) in part.iter_mut().enumerate() {
        *byte = numbers[j] as u8;
    }
}

// Whether one of the bytes is `bound` or more. All of them are looked at, with no way out of the loop, so that it is vectorised.
pub fn reaches(bytes: &[u8], bound: u8) -> bool
    ensures { result ≡ reached bound bytes.now }
{
    let mut found = false;
    for byte in bytes {
        found |= bound <= *byte;
    }
    found
}
