// The columns through the cells of a grid, and through its lines.
ghost use Rattle.std.specs.Prelude.{ℕ, ◌≤◌, ◌<◌};
ghost use Rattle.field.specs.Prime.{Inverses};
ghost use Rattle.field.specs.Row.{Row};
ghost use Rattle.polynomial.specs.Powers.{Rows};
ghost use Rattle.drafts.specs.Redrawn.{Redrawn};

use crate::newton;
use distance::word;
use polynomial::Grid;
use polynomial::bivariate::place_of_each;

// Meant: the first k places of the rows become the first k columns. The other columns stay.
fn exchange(f: &[[u16; 16]; 16], k: usize, columns: &mut [[u16; 16]; 16])
    requires { k ≤ 16 }
    ensures { (p : ℕ) → 0 < p → Rows p f.now → Rows p columns.old → Redrawn p k columns.old columns.new }
{
    for t in 0..k {
        columns[t] = place_of_each(f, t);
    }
}

// Meant: the columns of the polynomial through the cells of the first d + 1 rows and columns. False is meant to say that its
// degree in X and Y is above d, so that one of these cells is wrong and the columns are of no use. The columns are lent, since a
// table that is handed back is copied.
pub fn from_cells(
    g: Grid,
    inverses: &[u16; 251],
    cells: &[[u16; 16]; 16],
    columns: &mut [[u16; 16]; 16],
) -> bool
    requires { Inverses g.modulus.p inverses.now × Rows g.modulus.p cells.now × Rows g.modulus.p columns.old }
    ensures { Rows g.modulus.p columns.new }
{
    let mut f = *cells;
    newton::divide_differences(&mut f, g.x, g.d, g.modulus, inverses);
    let highest = f[g.d];
    if word::differing(g.d + 1, highest, [highest[0]; 16]) != 0 {
        return false;
    }
    newton::change_to_powers(&mut f, g.x, g.d, g.modulus);
    exchange(&f, g.d + 1, columns);
    newton::divide_differences(columns, g.y, g.d, g.modulus, inverses);
    newton::change_to_powers(columns, g.y, g.d, g.modulus);
    true
}

// Meant: the lines whose answers are known, and their points, come first; how many they are.
fn gather(g: Grid, known: [Option<u32>; 16], f: &mut [[u16; 16]; 16], z: &mut [u16; 16]) -> usize
    requires { Rows g.modulus.p f.old × Row g.modulus.p z.old }
    ensures { Rows g.modulus.p f.new × Row g.modulus.p z.new × (result ≤ 16) }
{
    let mut i = 0;
    for r in 0..g.a {
        if known[r].is_some() {
            f[i] = f[r];
            z[i] = g.x[r];
            i += 1;
        }
    }
    i
}

// Meant: the columns of Y^0 to Y^(t - 1) through the first d + 1 lines whose answers are known. False is meant to say that these
// are fewer, or that the next one does not fit them. The columns from Y^t on stay.
pub fn from_lines(
    g: Grid,
    inverses: &[u16; 251],
    t: usize,
    messages: &[[u16; 16]; 16],
    known: [Option<u32>; 16],
    columns: &mut [[u16; 16]; 16],
) -> bool
    requires { Inverses g.modulus.p inverses.now × (t ≤ g.d) × Rows g.modulus.p messages.now ×
        Rows g.modulus.p columns.old }
    ensures { Redrawn g.modulus.p t columns.old columns.new }
{
    let mut f = *messages;
    let mut z = g.x;
    let count = gather(g, known, &mut f, &mut z);
    if count <= g.d {
        return false;
    }
    let last = (count - 1).min(g.d + 1);
    newton::divide_differences(&mut f, z, last, g.modulus, inverses);
    if last > g.d && word::differing(t, f[last], [0; 16]) != 0 {
        return false;
    }
    newton::change_to_powers(&mut f, z, g.d, g.modulus);
    exchange(&f, t, columns);
    true
}
