// The order in which cells enter: by doubt, and by place among cells of one doubt.
// A cell's key is 16 times its doubt and its place.
#![tactic(auto, using(field::proofs::Row::making_done))]

ghost use Rattle.std.specs.Prelude.{◌≡◌, cond, ℕ, ◌≤◌, min, eqb};
ghost use Rattle.bounded.specs.Bounded.{at};
ghost use Rattle.field.specs.Row.{row};
ghost use Rattle.distance.specs.Doubts.{Doubts};
ghost use Rattle.welch_berlekamp.specs.Order.{taken, key, Least};

// The key of a cell that has entered, or is none. Every other key is less, since doubts are below 65,536.
pub const TAKEN: u32 = 1048576;

// The keys of the n cells.
pub fn keys(n: usize, u: [u32; 16]) -> [u32; 16]
    requires { (n ≤ 16) × Doubts 65535 n (at u) }
    ensures { result ≡ row (λ j. key n (at u j) j) }
{
    let mut out = [TAKEN; 16];
    for j in 0..n {
        out[j] = u[j] * 16 + j as u32;
    }
    out
}

// The lower of two keys, compared as signed numbers, which the processor does for many at a time.
fn lower(a: u32, b: u32) -> u32
    requires { (a ≤ taken) × (b ≤ taken) }
    ensures { result ≡ min a b }
{
    (a as i32).min(b as i32) as u32
}

// The least key.
#[tactic(auto, using(crate::proofs::Cursor::least_more))]
pub fn least(keys: [u32; 16]) -> u32
    requires { (j : ℕ) → at keys j ≤ taken }
    ensures { Least 16 keys result }
{
    let mut best = TAKEN;
    for j in 0..16 {
        best = lower(keys[j], best);
    }
    best
}

// The keys of the cells that w marks.
pub fn marked(w: [u16; 16], keys: [u32; 16]) -> [u32; 16]
    ensures { result ≡ row (λ j. cond (eqb (at w j) 0) taken (at keys j)) }
{
    let mut out = [TAKEN; 16];
    for j in 0..16 {
        out[j] = if w[j] == 0 { TAKEN } else { keys[j] };
    }
    out
}

// The keys without the one of a cell that enters. By comparing: a number put in its place would have to be stored before the row
// can be loaded for the next least key.
pub fn without(keys: [u32; 16], key: u32) -> [u32; 16]
    ensures { result ≡ row (λ j. cond (eqb (at keys j) key) taken (at keys j)) }
{
    let mut out = [TAKEN; 16];
    for j in 0..16 {
        out[j] = if keys[j] == key { TAKEN } else { keys[j] };
    }
    out
}
