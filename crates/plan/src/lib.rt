// The season plan, the 40 bytes of the first table: checking one, what a sound one says, finding one in a plan file. A plan may
// be any bytes of any length. Its bytes are read here and nowhere else; everything above takes the struct that `parse` makes.
#![tactic(auto)]

pub mod kind;
mod season;

ghost use Rattle.std.specs.Prelude.{◌≡◌, ◌&&◌, ◌||◌, cond, ◌+◌, ◌≤◌, ◌<◌, IfOk, MatchOption, ltb, leb, length};
ghost use Rattle.definitions.specs.Plan.{plan_bytes, unfit, misplaced, check_number};
ghost use Rattle.definitions.specs.Numbers.{number_of};
ghost use Rattle.definitions.specs.Cost.{full_in};
ghost use Rattle.definitions.specs.Sound.{Sound};
ghost use Rattle.definitions.specs.Finder.{plans, first_plan, find_number, find_offset, find_bytes, address_at};
ghost use Rattle.plan.specs.Says.{bytes_of, Parsed};
ghost use Rattle.plan.specs.Found.{offset_of};

use definitions::{PLAN_BYTES, Refusal};
use field::bytes;
use field::modulus::Modulus;
use polynomial::Grid;
pub use season::Plan;

// The first refusal, of 1, 2, 3, 13, 4, 5 in this order, that applies to the plan. The tests are the rows of `plan_rows`, one for
// one.
pub fn check(plan: &[u8]) -> Result<(), Refusal>
    ensures { number_of result ≡ check_number plan.now }
{
    Refusal::PlanBytes.when(plan.len() != PLAN_BYTES)?;
    Refusal::PlanBytes.when(bytes::reaches(&plan[38..40], 1))?;
    let p = plan[2];
    Refusal::Modulus.when(!field::scalar::is_prime(p))?;
    Refusal::Modulus.when(251 < p)?;
    let rows = plan[3];
    Refusal::Rows.when(is_unfit(p, rows))?;
    let columns = plan[4];
    Refusal::Columns.when(is_unfit(p, columns))?;
    Refusal::Degree.when(rows.min(columns) <= plan[5])?;
    Refusal::Points.when(is_misplaced(plan, 6, rows))?;
    Refusal::Points.when(is_misplaced(plan, 22, columns))
}

// Whether n points are none, above 16, or more than p.
fn is_unfit(p: u8, n: u8) -> bool
    ensures { result ≡ unfit p n }
{
    (n == 0) | ((16 < n) | (p < n))
}

// Whether one of the sixteen bytes from byte a on, of which the first n are points, is wrong. Each is looked at with the one
// after it, and the loop has no way out, so that the compiler compares all at once.
fn is_misplaced(plan: &[u8], a: usize, n: u8) -> bool
    requires { (length plan.now ≡ plan_bytes) × (a + 16 < plan_bytes) × (n ≤ 16) }
    ensures { result ≡ misplaced plan.now a n }
{
    let p = plan[2];
    let mut found = false;
    for i in 0..16 {
        let at = a + usize::from(i);
        found = found | is_wrong_point(plan[at], plan[at + 1], i, n, p);
    }
    found
}

// Whether byte i of them is not below its limit, or the next one is a point too and not above it.
fn is_wrong_point(byte: u8, next: u8, i: u8, n: u8, p: u8) -> bool
    requires { i < 16 }
    ensures { result ≡ (leb (cond (ltb i n) p 1) byte || (ltb (i + 1) n && leb next byte)) }
{
    (limit(i, n, p) <= byte) | ((i + 1 < n) & (next <= byte))
}

// What byte i must be below: a point below p, an unused byte below 1.
fn limit(i: u8, n: u8, p: u8) -> u8
    ensures { result ≡ cond (ltb i n) p 1 }
{
    if i < n { p } else { 1 }
}

// What a sound plan says.
pub fn parse(plan: &[u8]) -> Plan
    requires { Sound plan.now }
    ensures { bytes_of result ≡ plan.now }
{
    let season = bytes::pair(plan[0], plan[1]);
    let p = u16::from(plan[2]);
    let grid = Grid {
        modulus: Modulus::new(p),
        x: bytes::row(&plan[6..22]),
        a: usize::from(plan[3]),
        y: bytes::row(&plan[22..38]),
        b: usize::from(plan[4]),
        d: usize::from(plan[5]),
        full: full_doubt(season),
    };
    Plan { season, grid }
}

// The full doubt of a season, which is the doubt of a cell of which nothing is known: the newer cameras report finer doubts.
fn full_doubt(season: u16) -> u32
    ensures { result ≡ full_in season }
{
    if season < 30 { 100 } else { 250 }
}

// A plan as any bytes: what it says, or the refusal that `check` finds.
impl<'a> TryFrom<&'a [u8]> for Plan {
    type Error = Refusal;

    ghost try_from_gives = { λ plan r. Parsed plan.now r };

    fn try_from(plan: &'a [u8]) -> Result<Plan, Refusal> {
        check(plan)?;
        Ok(parse(plan))
    }
}

// Which record of the file is the first of the season, counted from 0. Only the season bytes are compared; no plan is checked.
fn first_of(file: &[u8], season: u16) -> Option<usize>
    ensures { MatchOption result (first_plan file.now season ≡ plans file.now)
        (λ k. (k < plans file.now) × (k ≡ first_plan file.now season)) }
{
    file.chunks_exact(PLAN_BYTES)
        .position(|plan| bytes::pair(plan[0], plan[1]) == season)
}

// Where it begins in the file, a multiple of 40. Refusals: 11 for a file of broken records, 12 where no record has the season.
pub fn locate(file: &[u8], season: u16) -> Result<usize, Refusal>
    ensures number { number_of result ≡ find_number file.now season }
    ensures offset { offset_of result ≡ find_offset file.now season }
{
    Refusal::PlanFile.when(file.len() % PLAN_BYTES != 0)?;
    let k = first_of(file, season).ok_or(Refusal::NoPlan)?;
    Ok(k * PLAN_BYTES)
}

// The same, as the record itself: 40 bytes of the lent file and no copy.
pub fn find<'a>(file: &'a [u8], season: u16) -> Result<&'a [u8], Refusal>
    ensures number { number_of result ≡ find_number file.now season }
    ensures address { IfOk result (λ part. part.ref_ptr ≡ address_at file.entry (find_offset file.now season)) }
    ensures bytes { IfOk result (λ part. part.now ≡ find_bytes file.now season) }
{
    let at = locate(file, season)?;
    Ok(&file[at..at + PLAN_BYTES])
}
