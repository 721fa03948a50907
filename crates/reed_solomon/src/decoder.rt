// The strip decoder (document 004, chapter 4, by generalised minimum distance): levels of doubt rise, the cells of a level enter
// the interpolation one by one, and after each the candidate, if there may be one, is measured against the whole strip. A
// measured one under the radius is the only one, so that it ends the trial. The first k + 1 cells have one polynomial through
// them, which is measured first.
ghost use Rattle.std.specs.Prelude.{◌≡◌, cond, ℕ, ◌≤◌, eqb};
ghost use Rattle.bounded.specs.Bounded.{at, sum};
ghost use Rattle.field.specs.Prime.{Inverses};
ghost use Rattle.field.specs.Row.{row};
ghost use Rattle.distance.specs.Doubts.{Doubts};
ghost use Rattle.welch_berlekamp.specs.Order.{key};
ghost use Rattle.reed_solomon.specs.Axis.{Valid, Received};
ghost use Rattle.reed_solomon.specs.Decoded.{StripDecoded, Tried, Fitted, Hope, Candidate};

use crate::axis::Axis;
use distance::word;
use welch_berlekamp::interpolation::{Pair, Pairs};
use welch_berlekamp::newton::Newton;
use welch_berlekamp::{newton, order};

// A polynomial: its coefficients, its values at the points, and what these cost.
#[derive(Clone, Copy)]
pub struct Decoded {
    pub message: [u16; 16],
    pub values: [u16; 16],
    pub cost: u32,
}

// v in each place, but z where e is 0. The usable cells are those that have entered, but none where e is 0; and a near polynomial
// Q / E has another value than the symbol where e is 0, or d is not.
#[tactic(auto, using(field::proofs::Row::making_done))]
fn chosen(e: [u16; 16], z: u16, v: [u16; 16]) -> [u16; 16]
    ensures { result ≡ row (λ j. cond (eqb (at e j) 0) z (at v j)) }
{
    let mut out = [0u16; 16];
    for j in 0..16 {
        out[j] = if e[j] == 0 { z } else { v[j] };
    }
    out
}

// How many cells v marks.
fn count(v: [u16; 16]) -> usize
    requires { (j : ℕ) → at v j ≤ 1 }
    ensures { result ≡ sum 16 (at v) }
{
    let mut marked = 0;
    for j in 0..16 {
        marked += v[j];
    }
    usize::from(marked)
}

// The sum of the n doubts: no polynomial costs less.
fn doubt_sum(n: usize, u: [u32; 16]) -> u32
    requires { (n ≤ 16) × Doubts 65535 n (at u) }
    ensures { result ≡ sum n (at u) }
{
    let mut doubts = 0;
    for j in 0..n {
        doubts += u[j];
    }
    doubts
}

// The polynomial f, if it costs under the radius.
fn measured(g: Axis, f: Newton, s: [u16; 16], u: [u32; 16]) -> Option<Decoded>
    requires { Received g s u × Fitted g s f }
    ensures { Tried g s u f.entered result }
{
    let rest = f.rest;
    let cost = word::word_cost(g.n, rest, u, [0; 16], g.full);
    if cost >= word::radius(g.full, 1, g.n, g.k) {
        return None;
    }
    let slopes = f.slopes;
    let nodes = f.nodes;
    let message = newton::coefficients(slopes, nodes, g.k, g.modulus);
    let values = g.modulus.add_multiple(rest, 1, s);
    Some(Decoded {
        message,
        values,
        cost,
    })
}

// Whether the pairs may have a candidate. A near polynomial makes E2 zero at just the entered cells where it is missed, as many
// as the second degree, and at no other point: so it is missed where E2 is 0 or D2 is not, which tells its cost.
fn hopeful(g: Axis, pairs: &Pairs, u: [u32; 16]) -> bool
    requires { Valid g × Doubts g.full g.n (at u) × (pairs.now.second.degree ≤ 16) × ((j : ℕ) → at pairs.now.entered j ≤ 1) }
    ensures { Hope g u pairs.now result }
{
    if pairs.first.degree <= pairs.second.degree + g.k {
        return false;
    }
    let e = pairs.second.e;
    if count(chosen(e, 0, pairs.entered)) != pairs.first.degree {
        return false;
    }
    let suspect = chosen(e, 1, pairs.second.d);
    let cost = word::word_cost(g.n, suspect, u, [0; 16], g.full);
    cost < word::radius(g.full, 1, g.n, g.k)
}

// The candidate, measured: a near polynomial goes through all usable cells.
fn attempt(
    g: Axis,
    inverses: &[u16; 251],
    pairs: &Pairs,
    keys: [u32; 16],
    s: [u16; 16],
    u: [u32; 16],
) -> Option<Decoded>
    requires { Received g s u × Inverses g.modulus.p inverses.now × (keys ≡ row (λ j. key g.n (at u j) j)) ×
        Candidate g s pairs.now }
    ensures { Tried g s u pairs.now.entered result }
{
    let x = g.x;
    let usable = chosen(pairs.second.e, 0, pairs.entered);
    let f = newton::through(order::marked(usable, keys), x, s, g.k, g.modulus, inverses);
    measured(g, f, s, u)
}

// The polynomial of degree at most k that costs under full * (n - k), by its k + 1 coefficients, values and cost; or none.
pub fn decode(g: Axis, inverses: &[u16; 251], s: [u16; 16], u: [u32; 16]) -> Option<Decoded>
    requires { Received g s u × Inverses g.modulus.p inverses.now }
    ensures { StripDecoded g s u result }
{
    if doubt_sum(g.n, u) >= word::radius(g.full, 1, g.n, g.k) {
        return None;
    }
    let x = g.x;
    let all = order::keys(g.n, u);
    let f = newton::through(all, x, s, g.k, g.modulus, inverses);
    // g again, made of its fields: a struct that is copied whole right after its caller stored it waits for the stores.
    let axis = Axis {
        modulus: g.modulus,
        x,
        n: g.n,
        k: g.k,
        full: g.full,
    };
    if let Some(answer) = measured(axis, f, s, u) {
        return Some(answer);
    }
    let product = f.product;
    let rest = f.rest;
    let entered = f.entered;
    let mut pairs = Pairs {
        first: Pair {
            d: product,
            e: [0; 16],
            degree: g.k + 1,
        },
        second: Pair {
            d: rest,
            e: [1; 16],
            degree: 0,
        },
        entered,
    };
    let mut keys = f.keys;
    let mut next = order::least(keys);
    let mut found = None;
    'levels: while next < g.full * 16 {
        let level = next / 16;
        while next / 16 == level {
            let r = (next % 16) as usize;
            let others = order::without(keys, next);
            keys = others;
            next = order::least(keys);
            pairs.enter(x, r, g.k, g.modulus, inverses);
            if hopeful(g, &pairs, u) {
                if let Some(answer) = attempt(axis, inverses, &pairs, all, s, u) {
                    found = Some(answer);
                    break 'levels;
                }
            }
        }
    }
    found
}
