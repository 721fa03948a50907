// The text that a program answers with, which grows piece by piece, and the lines that more than one program prints. `program`
// has what the programs do around it.
//
// Nothing is printed by `write!`, since std says what that writes only where it succeeds, and not when it does.
#![tactic(auto)]

ghost use Rattle.std.specs.Prelude.{◌≡◌, List, ℕ, [], ◌∷◌, ◌++◌, ◌+◌, ◌*◌, ◌≤◌, ◌<◌, length, take};
ghost use Rattle.definitions.specs.Printed.{decimal, signed, spaced, costs, record_line, number_line, refused_line};

use definitions::Reading;
use std::marker::Model;

pub mod program;

// At most N bytes. To a contract it is the list of those that have been put.
#[derive(Drop)]
pub struct Text<const N: usize> {
    bytes: [u8; N],
    end: usize,
}

impl<const N: usize> Model for Text<N> {
    ghost Value = { List ℕ };

    ghost view = { λ t. take t.end t.bytes };

    ghost invariant = { λ t. t.end ≤ N };
}

impl<const N: usize> Text<N> {
    pub fn new() -> Text<N>
        ensures { result ≡ [] }
    {
        Text {
            bytes: [0; N],
            end: 0,
        }
    }

    // The bytes that have been put.
    pub fn as_bytes(&self) -> &[u8]
        ensures { result.now ≡ self.now }
    {
        &self.bytes[..self.end]
    }

    // A word.
    pub fn put_bytes(&mut self, word: &[u8])
        requires { length self.old + length word.now ≤ N }
        ensures { self.new ≡ self.old ++ word.now }
    {
        let end = self.end + word.len();
        let bytes = &mut self.bytes[..];
        bytes[self.end..end].copy_from_slice(word);
        self.end = end;
    }

    // One character.
    pub fn put_byte(&mut self, byte: u8)
        requires { length self.old < N }
        ensures { self.new ≡ self.old ++ byte ∷ [] }
    {
        self.bytes[self.end] = byte;
        self.end += 1;
    }

    // A number in decimal.
    pub fn put_natural(&mut self, n: u32)
        requires { length self.old + length (decimal n) ≤ N }
        ensures { self.new ≡ self.old ++ decimal n }
    {
        let mut digits = [0; 10];
        let end = write_digits(n, &mut digits);
        self.put_bytes(&digits[..end]);
    }

    // A signed number, any of 32 bits.
    pub fn put_signed(&mut self, z: i32)
        requires { length self.old + length (signed z) ≤ N }
        ensures { self.new ≡ self.old ++ signed z }
    {
        if z < 0 {
            self.put_bytes(b"-");
        }
        self.put_natural(z.unsigned_abs());
    }

    // A number after a space.
    pub fn put_spaced(&mut self, n: u32)
        requires { length self.old + length (spaced (n ∷ [])) ≤ N }
        ensures { self.new ≡ self.old ++ spaced (n ∷ []) }
    {
        self.put_byte(b' ');
        self.put_natural(n);
    }

    // Bytes as numbers, each after a space.
    pub fn put_all_spaced(&mut self, bytes: &[u8])
        requires { length self.old + length (spaced bytes.now) ≤ N }
        ensures { self.new ≡ self.old ++ spaced bytes.now }
    {
        for byte in bytes {
            self.put_spaced(u32::from(*byte));
        }
    }

    // The end of a line: the cost, of at most 10 digits, and the margin, of at most 11 characters, each after a space.
    pub fn put_costs(&mut self, reading: Reading)
        requires { length self.old + 24 ≤ N }
        ensures line { self.new ≡ self.old ++ costs reading }
        ensures most { length self.new ≤ length self.old + 24 }
    {
        self.put_spaced(reading.cost);
        self.put_byte(b' ');
        self.put_signed(reading.margin);
        self.put_byte(b'\n');
    }

    // The line of a record: RECORD and the coefficients, each of at most 3 digits.
    pub fn put_record(&mut self, record: &[u8])
        requires { length self.old + (7 + 4 * length «record».now) ≤ N }
        ensures { self.new ≡ self.old ++ record_line «record».now }
    {
        self.put_bytes(b"RECORD");
        self.put_all_spaced(record);
        self.put_bytes(b"\n");
    }

    // A line of a word and a number of at most 10 digits.
    pub fn put_line(&mut self, word: &[u8], number: u32)
        requires { length self.old + (length word.now + 12) ≤ N }
        ensures line { self.new ≡ self.old ++ number_line word.now number }
        ensures most { length self.new ≤ length self.old + (length word.now + 12) }
    {
        self.put_bytes(word);
        self.put_spaced(number);
        self.put_byte(b'\n');
    }

    // The line of a refusal, alone.
    pub fn refused(number: u32) -> Text<N>
        requires { 19 ≤ N }
        ensures { result ≡ refused_line number }
    {
        let mut text = Text::new();
        text.put_line(b"REFUSED", number);
        text
    }
}

// Writes the digits of a number at the front of the room, those of a tenth of it and then its last one, and returns how many.
fn write_digits(n: u32, room: &mut [u8]) -> usize
    requires { length (decimal n) ≤ length room.old }
    ensures count { result ≡ length (decimal n) }
    ensures digits { take result room.new ≡ decimal n }
{
    if n < 10 {
        room[0] = b'0' + n as u8;
        return 1;
    }
    let end = write_digits(n / 10, room);
    room[end] = b'0' + (n % 10) as u8;
    end + 1
}
