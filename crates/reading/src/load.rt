// Lent bytes of a photograph as rows of sixteen; what is beyond their end is 0. A grid has a rows of b cells each.
ghost use Rattle.std.specs.Prelude.{◌≡◌, [], ◌*◌, ◌≤◌, length, replicate};
ghost use Rattle.std.specs.Fn.{FnReturnsAt};
ghost use Rattle.bounded.specs.Bounded.{at};
ghost use Rattle.field.specs.Loop.{Passed};
ghost use Rattle.field.specs.Row.{row as row_of};
ghost use Rattle.reading.specs.Loading.{residue, line, SymbolRows, DoubtLines};

use definitions::UNREAD;
use field::bytes;

// The residue that stands for a symbol.
fn symbol_residue(symbol: u8) -> u16
    ensures { result ≡ residue symbol }
{
    if symbol == UNREAD {
        return 0;
    }
    u16::from(symbol)
}

// At most sixteen symbols as residues: 0 where a cell is unread, and beyond their end.
pub fn residue_row(symbols: &[u8]) -> [u16; 16]
    requires { length symbols.now ≤ 16 }
    ensures { result ≡ row_of (λ j. residue (at symbols.now j)) }
{
    let mut out = [0; 16];
    for (i, symbol) in symbols.iter().enumerate() {
        out[i] = symbol_residue(*symbol);
    }
    out
}

// The rows of a grid, each loaded from its own part of the bytes.
fn rows<T: Copy, F: Fn(&[u8]) -> [T; 16]>(
    bytes: &[u8],
    a: usize,
    b: usize,
    zero: T,
    load: F,
) -> [[T; 16]; 16]
    requires whole { (a ≤ 16) × (b ≤ 16) × (length bytes.now ≡ a * b) }
    requires loads { (part : _) → length part.now ≤ 16 → F.pre load part }
    ensures { Passed 16 [] (λ _ l. l ≡ replicate 16 zero)
        (λ r l. FnReturnsAt F.Fn load (line b r bytes.now) l) result a }
{
    let mut rows = [[zero; 16]; 16];
    for r in 0..a {
        let at = r * b;
        rows[r] = load(&bytes[at..at + b]);
    }
    rows
}

// The symbols of a grid as residues.
pub fn residue_rows(symbols: &[u8], a: usize, b: usize) -> [[u16; 16]; 16]
    requires { (a ≤ 16) × (b ≤ 16) × (length symbols.now ≡ a * b) }
    ensures { SymbolRows b symbols.now result }
{
    rows(symbols, a, b, 0, residue_row)
}

// The doubts of a grid.
pub fn doubt_rows(doubts: &[u8], a: usize, b: usize) -> [[u32; 16]; 16]
    requires { (a ≤ 16) × (b ≤ 16) × (length doubts.now ≡ a * b) }
    ensures { DoubtLines b doubts.now result }
{
    rows(doubts, a, b, 0, bytes::wide_row)
}
