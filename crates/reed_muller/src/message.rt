// The flat record, group by group, from the coefficients of the powers of Y.
ghost use Rattle.std.specs.Prelude.{◌≡◌, ◌+◌, ◌<◌, length};
ghost use Rattle.polynomial.specs.Record.{longest};
ghost use Rattle.reed_muller.specs.Groups.{Grouped, Flat};

use polynomial::bivariate::{LONGEST, place};

// Writes the group of total degree k: by rising power of Y, so X^k first.
fn put_group(message: &mut [u16; LONGEST], columns: &[[u16; 16]; 16], k: usize)
    requires { (length message.old ≡ longest) × (k < 16) }
    ensures { Grouped columns.now k (k + 1) message.old message.new }
{
    for j in 0..k + 1 {
        message[place(k - j, j)] = columns[j][k - j];
    }
}

// Writes the record of degree d whose coefficients of Y^t are row t of the columns.
pub fn flatten(message: &mut [u16; LONGEST], columns: &[[u16; 16]; 16], d: usize)
    requires { (length message.old ≡ longest) × (d < 16) }
    ensures { Flat columns.now (d + 1) message.new }
{
    for k in 0..d + 1 {
        put_group(message, columns, k);
    }
}
