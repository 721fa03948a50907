// The program's argument: whether it has the form of a date, and which date it is.
ghost use Rattle.std.specs.Prelude.{◌≡◌, ◌&&◌, ◌+◌, ◌*◌, ◌-◌, ◌<◌, length};
ghost use Rattle.definitions.specs.Printed.{digit};
ghost use Rattle.definitions.specs.Dated.{is_digit, dated, asked_date};

use calendar::Date;

// How many bytes a date has: YYYY-MM-DD.
pub const DATE_BYTES: usize = 10;

// Whether the word is four digits, '-', two digits, '-', two digits, and nothing else.
pub fn is_dated(word: &[u8]) -> bool
    ensures { result ≡ dated word.now }
{
    if word.len() != DATE_BYTES {
        return false;
    }
    let year = are_digits(word[0], word[1]) & are_digits(word[2], word[3]);
    let month = (word[4] == b'-') & are_digits(word[5], word[6]);
    let day = (word[7] == b'-') & are_digits(word[8], word[9]);
    year & (month & day)
}

// Whether both are digits.
fn are_digits(a: u8, b: u8) -> bool
    ensures { result ≡ (is_digit a && is_digit b) }
{
    a.is_ascii_digit() && b.is_ascii_digit()
}

// The date that the word shows, which need not be real.
pub fn asked_date(word: &[u8]) -> Date
    requires { length word.now ≡ 10 }
    ensures { result ≡ asked_date word.now }
{
    let century = number_of(word[0], word[1]);
    let year = number_of(word[2], word[3]);
    Date {
        year: century * 100 + year,
        month: number_of(word[5], word[6]),
        day: number_of(word[8], word[9]),
    }
}

// The number of two digits, at most 11 times 255 whatever the bytes: a byte below all digits counts as 0.
fn number_of(tens: u8, ones: u8) -> u32
    ensures is { result ≡ (tens - digit 0) * 10 + (ones - digit 0) }
    ensures most { result < 2816 }
{
    u32::from(tens.saturating_sub(b'0')) * 10 + u32::from(ones.saturating_sub(b'0'))
}
