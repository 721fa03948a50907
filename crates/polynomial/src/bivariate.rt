// The polynomial in X and Y that a message, a flat record of document 01, holds, and its values row by row: first X is put in,
// for all rows at once, which leaves the coefficients of the powers of Y; then Y, a row at a time.
ghost use Rattle.std.specs.Prelude.{◌≡◌, cond, List, [], ℕ, suc, ◌+◌, ◌≤◌, ◌<◌, leb, length, get_or};
ghost use Rattle.bounded.specs.Bounded.{at};
ghost use Rattle.field.specs.Row.{row, Row};
ghost use Rattle.polynomial.specs.Record.{start as start_of, place as place_of, coef, value_xy};
ghost use Rattle.field.specs.Word.{Word};
ghost use Rattle.polynomial.specs.Powers.{Rows, Powers, Columns};

use crate::{Grid, evaluation};
use field::modulus::Modulus;
use std::array;

// The length of the longest record, that of degree 15.
pub const LONGEST: usize = 136;

// Where the group of total degree k begins; for k below 2^32 the product doesn't wrap. A record of degree d has start(d + 1)
// coefficients.
pub fn start(k: usize) -> usize
    requires { k < 4294967296 }
    ensures { result ≡ start_of k }
{
    k * (k + 1) / 2
}

// Where the coefficient of X^i Y^t stands: in the group of total degree i + t by rising power of Y.
pub fn place(i: usize, t: usize) -> usize
    requires { i + t < 4294967296 }
    ensures { result ≡ place_of i t }
{
    start(i + t) + t
}

// The coefficient of Y^t, a polynomial in X of degree d - t at most, by its own coefficients.
fn coefficient_of_y(message: &[u8], d: usize, t: usize) -> [u16; 16]
    requires { (length message.now ≡ start_of (suc d)) × (d < 16) × (t ≤ d) }
    ensures { result ≡ row (λ i. cond (leb (i + t) d) (coef message.now i t) 0) }
{
    let mut out = [0u16; 16];
    for i in 0..d - t + 1 {
        out[i] = u16::from(message[place(i, t)]);
    }
    out
}

// Row t gets, for each of the row points whose powers are given, the coefficient of Y^t there.
fn set_columns(
    columns: &mut [[u16; 16]; 16],
    message: &[u8],
    powers: &[[u16; 16]; 16],
    d: usize,
    modulus: Modulus,
)
    requires { Rows modulus.p powers.now × Word modulus.p (start_of (suc d)) message.now × (d < 16)
        × Rows modulus.p columns.old }
    ensures { Rows modulus.p columns.new × ((x : List ℕ) → Powers modulus.p x d powers.now →
        Columns modulus.p d x message.now columns.new) }
{
    for t in 0..d + 1 {
        let w = coefficient_of_y(message, d, t);
        columns[t] = evaluation::values(powers, d - t, w, modulus);
    }
}

// What the values of a message on a grid are made of: its columns, and the powers of the column points. The tables are lent,
// since one that is handed back is copied; that of the powers has those of the row points first, for the columns.
pub fn prepare(message: &[u8], g: Grid, columns: &mut [[u16; 16]; 16], powers: &mut [[u16; 16]; 16])
    requires { Word g.modulus.p (start_of (suc g.d)) message.now × Rows g.modulus.p columns.old
        × Rows g.modulus.p powers.old }
    ensures { Rows g.modulus.p columns.new × Columns g.modulus.p g.d g.x message.now columns.new
        × Rows g.modulus.p powers.new × Powers g.modulus.p g.y g.d powers.new }
{
    evaluation::set_powers(powers, g.x, g.d, g.modulus);
    set_columns(columns, message, powers, g.d, g.modulus);
    evaluation::set_powers(powers, g.y, g.d, g.modulus);
}

// Place r of each row.
pub fn place_of_each(rows: &[[u16; 16]; 16], r: usize) -> [u16; 16]
    requires { r < 16 }
    ensures { result ≡ row (λ t. at (get_or rows.now t []) r) }
{
    array::from_fn(|t| rows[t][r])
}

// The values in row r: a polynomial in Y, whose coefficients are place r of the columns, at the column points, whose powers are
// given. Not by `place_of_each` and `values`: gathering the whole row first would take a quarter more time.
pub fn row_values(
    columns: &[[u16; 16]; 16],
    powers: &[[u16; 16]; 16],
    r: usize,
    d: usize,
    modulus: Modulus,
) -> [u16; 16]
    requires { Rows modulus.p columns.now × Rows modulus.p powers.now × (r < 16) × (d < 16) }
    ensures { Row modulus.p result × ((x y F : List ℕ) → Columns modulus.p d x F columns.now →
        Powers modulus.p y d powers.now → result ≡ row (λ j. value_xy modulus.p d F (at x r) (at y j))) }
{
    let mut sum = [u32::from(columns[0][r]); 16];
    for (column, v) in columns[1..=d].iter().zip(&powers[1..]) {
        evaluation::add_product(&mut sum, column[r], v);
    }
    modulus.fold_row(sum)
}
