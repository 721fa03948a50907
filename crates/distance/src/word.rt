// The cost of a word of at most sixteen cells, for any full doubt: document 01, "Photographed mark and cost".
ghost use Rattle.std.specs.Prelude.{◌≡◌, ◌*◌, ◌-◌, ◌≤◌, ◌<◌};
ghost use Rattle.bounded.specs.Bounded.{at};
ghost use Rattle.distance.specs.Cost.{cell, cost, differ, hamming};
ghost use Rattle.distance.specs.Doubts.{Doubts};

// What one cell costs: its doubt where its symbol is the value, else twice the full doubt less its doubt. The full doubt is a
// number of 16 bits, so that a cell costs less than 2 * 65536 = 131072, and n cells at most n times that.
pub fn cell_cost(symbol: u16, doubt: u32, value: u16, full: u32) -> u32
    requires { (doubt ≤ full) × (full < 65536) }
    ensures { (result ≡ cell full symbol doubt value) × (result ≤ 131072) }
{
    if symbol == value {
        return doubt;
    }
    2 * full - doubt
}

// What the n values cost.
pub fn word_cost(
    n: usize,
    symbols: [u16; 16],
    doubts: [u32; 16],
    values: [u16; 16],
    full: u32,
) -> u32
    requires { (n ≤ 16) × Doubts full n (at doubts) × (full < 65536) }
    ensures { (result ≡ cost full n (at symbols) (at doubts) (at values)) × (result ≤ 131072 * n) }
{
    let mut sum = 0;
    for i in 0..n {
        sum += cell_cost(symbols[i], doubts[i], values[i], full);
    }
    sum
}

// 1 for two values that differ.
pub fn differs(v: u16, w: u16) -> u32
    ensures { (result ≡ differ v w) × (result ≤ 1) }
{
    u32::from(v != w)
}

// In how many of n cells two words differ.
pub fn differing(n: usize, v: [u16; 16], w: [u16; 16]) -> u32
    requires { n ≤ 16 }
    ensures { (result ≡ hamming n (at v) (at w)) × (result ≤ n) }
{
    let mut count = 0;
    for i in 0..n {
        count += differs(v[i], w[i]);
    }
    count
}

// R for so many lines of n points: a strip is one line, a mark as many lines of its smaller side as the larger has points. It is
// at most 65535 * 16 * 16, below the 2^31 = 2147483648 of an i32, in which a margin is kept.
pub fn radius(full: u32, lines: usize, n: usize, d: usize) -> u32
    requires { (full < 65536) × (lines ≤ 16) × (n ≤ 16) × (d ≤ n) }
    ensures { (result ≡ full * lines * (n - d)) × (result < 2147483648) }
{
    full * lines as u32 * (n - d) as u32
}
