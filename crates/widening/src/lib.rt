// Plans of document 01's old form, 24 bytes each, turned into plans of 40 bytes. No plan is checked.
#![tactic(auto)]

ghost use Rattle.std.specs.Prelude.{◌≡◌, ◌*◌, ◌/◌, length};
ghost use Rattle.definitions.specs.Numbers.{number_of};
ghost use Rattle.definitions.specs.Widening.{widened as widened_of, widened_all, widen_number, widen_buffer};

use definitions::{PLAN_BYTES, Refusal};

// The length of such a plan.
pub const NARROW_BYTES: usize = 24;

// How many of them may be given.
pub const MOST_PLANS: usize = 1000;

// Fills `wide` with the plans of `old`, widened, in order. Refusals: `PlanFile` for more than 1,000 plans or a broken one,
// `Length` where `wide` has not 40 bytes for each plan; then it is left as it was. The tests are the rows of `widen_rows`, one
// for one.
pub fn widen(old: &[u8], wide: &mut [u8]) -> Result<(), Refusal>
    ensures number { number_of result ≡ widen_number old.now wide.old }
    ensures buffer { wide.new ≡ widen_buffer old.now wide.old }
{
    if MOST_PLANS * NARROW_BYTES < old.len() {
        return Err(Refusal::PlanFile);
    }
    if old.len() % NARROW_BYTES != 0 {
        return Err(Refusal::PlanFile);
    }
    if wide.len() != old.len() / NARROW_BYTES * PLAN_BYTES {
        return Err(Refusal::Length);
    }
    widen_plans(old, wide);
    Ok(())
}

// Each plan into its own part.
fn widen_plans(old: &[u8], wide: &mut [u8])
    requires { length wide.old ≡ length old.now / 24 * 40 }
    ensures { wide.new ≡ widened_all old.now }
{
    let (plans, _) = old.as_chunks::<NARROW_BYTES>();
    for (k, plan) in plans.iter().enumerate() {
        let at = k * PLAN_BYTES;
        wide[at..at + PLAN_BYTES].copy_from_slice(&widened(plan));
    }
}

// One plan: season, p and n, for the rows; n again, for the columns, d and the row points; the column points; two zeros.
fn widened(old: &[u8; NARROW_BYTES]) -> [u8; PLAN_BYTES]
    ensures { result ≡ widened_of old.now }
{
    let mut wide = [0; PLAN_BYTES];
    wide[..4].copy_from_slice(&old[..4]);
    wide[4..22].copy_from_slice(&old[3..21]);
    wide[22..38].copy_from_slice(&old[5..21]);
    wide
}
