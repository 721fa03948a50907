// Season windows: which season a date is in, by a window file. The file may be any bytes of any length, the date any numbers.
#![tactic(auto)]

ghost use Rattle.std.specs.Prelude.{◌≡◌, ◌+◌, ◌*◌, ◌≤◌, ◌<◌, cond, length, position, OnOk};
ghost use Rattle.definitions.specs.Numbers.{number_of};
ghost use Rattle.definitions.specs.Windows.{date_at, season_number, season_found};
ghost use Rattle.windows.specs.Spans.{has_key, meet_keys, meet_any, meet_two, read as read_of, any_faulty, AreSpans, season_of};

use calendar::{Date, is_real, key};
use definitions::Refusal;
use field::bytes;

// The length of a window.
pub const WINDOW_BYTES: usize = 12;

// How many a file may have.
pub const MOST_WINDOWS: usize = 64;

// Where the first date of a window begins, its last date, and its two zeros.
const FIRST: usize = 2;

const LAST: usize = 6;

const ZEROS: usize = 10;

// A window by the keys of its end days.
#[derive(Clone, Copy)]
struct Span {
    first: u32,
    last: u32,
}

impl Span {
    // That of a window, which is refused where a date is unreal, the last before the first, or one of the last two bytes not 0.
    fn read(window: &[u8; WINDOW_BYTES]) -> Result<Span, Refusal>
        ensures { result ≡ read_of window.now }
    {
        let first = date_at(window, FIRST);
        let last = date_at(window, LAST);
        if !is_real(first) || !is_real(last) {
            return Err(Refusal::WindowFile);
        }
        let span = Span {
            first: key(first),
            last: key(last),
        };
        if span.last < span.first || bytes::reaches(&window[ZEROS..WINDOW_BYTES], 1) {
            return Err(Refusal::WindowFile);
        }
        Ok(span)
    }

    // Whether it has the day with this key.
    fn has(self, day: u32) -> bool
        ensures { result ≡ has_key day self }
    {
        (self.first <= day) & (day <= self.last)
    }

    // Whether neither of the two is over before the other begins.
    fn meets(self, other: Span) -> bool
        ensures { result ≡ meet_keys self other }
    {
        (self.first <= other.last) & (other.first <= self.last)
    }
}

// The season of the date. Refusals: `WindowFile` for a file of broken or too many windows, or with a faulty one; `SharedDay`
// where two windows share a day; `NoWindow` where the date is unreal or in no window. The tests are the rows of `season_rows`.
pub fn find(file: &[u8], date: Date) -> Result<u16, Refusal>
    ensures number { number_of result ≡ season_number file.now date }
    ensures season { season_of result ≡ season_found file.now date }
{
    let (windows, rest) = file.as_chunks::<WINDOW_BYTES>();
    if !rest.is_empty() || MOST_WINDOWS < windows.len() {
        return Err(Refusal::WindowFile);
    }
    let mut spans = [Span { first: 0, last: 0 }; MOST_WINDOWS];
    let spans = &mut spans[..windows.len()];
    read(windows, spans)?;
    if is_clashing(spans) {
        return Err(Refusal::SharedDay);
    }
    if !is_real(date) {
        return Err(Refusal::NoWindow);
    }
    let place = place(spans, key(date)).ok_or(Refusal::NoWindow)?;
    let window = &windows[place];
    Ok(u16::from_be_bytes([window[0], window[1]]))
}

// Reads each window into the span at its place.
fn read(windows: &[[u8; WINDOW_BYTES]], spans: &mut [Span]) -> Result<(), Refusal>
    requires { length spans.old ≡ length windows.now }
    ensures read { result ≡ cond (any_faulty windows.now (length windows.now)) (Err Refusal.WindowFile) (Ok tt) }
    ensures spans { OnOk result (AreSpans windows.now spans.new) }
{
    for (k, window) in windows.iter().enumerate() {
        spans[k] = Span::read(window)?;
    }
    Ok(())
}

// The date in the four bytes from byte a on.
fn date_at(window: &[u8; WINDOW_BYTES], a: usize) -> Date
    requires { a + 3 < 12 }
    ensures { result ≡ date_at window.now a }
{
    Date {
        year: u32::from(u16::from_be_bytes([window[a], window[a + 1]])),
        month: u32::from(window[a + 2]),
        day: u32::from(window[a + 3]),
    }
}

// Whether two of the windows meet. All pairs are looked at, with no way out, so that it is vectorised.
fn is_clashing(spans: &[Span]) -> bool
    ensures { result ≡ meet_two spans.now (length spans.now) }
{
    let mut found = false;
    for (k, span) in spans.iter().enumerate() {
        found |= is_met(&spans[..k], *span);
    }
    found
}

// Whether one of the windows meets another.
fn is_met(spans: &[Span], span: Span) -> bool
    ensures { result ≡ meet_any spans.now span (length spans.now) }
{
    let mut found = false;
    for other in spans {
        found |= other.meets(span);
    }
    found
}

// Which of the windows is the first that has the day.
fn place(spans: &[Span], day: u32) -> Option<usize>
    ensures { result ≡ position (has_key day) spans.now }
{
    spans.iter().position(|span| span.has(day))
}
