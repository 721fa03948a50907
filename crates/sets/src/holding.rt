// Starting a set, and the photographs that arrive and are withdrawn.
ghost use Rattle.std.specs.Prelude.{◌≡◌, length};
ghost use Rattle.definitions.specs.Numbers.{number_of};
ghost use Rattle.definitions.specs.Plan.{check_number};
ghost use Rattle.definitions.specs.Sets.{set_bytes, start_memory, add_number, add_memory, withdraw_number, withdraw_memory};

use definitions::{FLAGS, PLACE_BYTES, PLACES, PLAN_BYTES, Refusal, SET_BYTES, UNREAD};
use lent::fill;
use plan::Plan;

// Starts a set from a plan, with no photograph held. The plan's refusals.
pub fn start(set: &mut [u8], plan: &[u8]) -> Result<(), Refusal>
    requires { length set.old ≡ set_bytes }
    ensures number { number_of result ≡ check_number plan.now }
    ensures memory { set.new ≡ start_memory plan.now set.old }
{
    plan::check(plan)?;
    set[0..FLAGS].copy_from_slice(plan);
    fill(&mut set[FLAGS..PLACES], 0);
    fill(&mut set[PLACES..SET_BYTES], UNREAD);
    Ok(())
}

// Photograph k arrives. The refusals of the set's plan, 6, 17, 7 and 8. Its doubts are not kept.
pub fn add(set: &mut [u8], k: u32, symbols: &[u8], doubts: &[u8]) -> Result<(), Refusal>
    requires { length set.old ≡ set_bytes }
    ensures number { number_of result ≡ add_number set.old k symbols.now doubts.now }
    ensures memory { set.new
        ≡ add_memory set.old k symbols.now doubts.now }
{
    arrival(set, k, symbols, doubts)?;
    let at = PLACES + k as usize * PLACE_BYTES;
    set[at..at + symbols.len()].copy_from_slice(symbols);
    set[FLAGS + k as usize] = 1;
    Ok(())
}

// Whether it may: the set's plan is looked at first, then the photograph under it.
fn arrival(set: &[u8], k: u32, symbols: &[u8], doubts: &[u8]) -> Result<(), Refusal>
    requires { length set.now ≡ set_bytes }
    ensures { number_of result ≡ add_number set.now k symbols.now doubts.now }
{
    let plan = Plan::try_from(&set[0..PLAN_BYTES])?;
    checks::add(plan, set, k, symbols, doubts)
}

// Withdraws photograph k. Refusal 18.
pub fn withdraw(set: &mut [u8], k: u32) -> Result<(), Refusal>
    requires { length set.old ≡ set_bytes }
    ensures number { number_of result ≡ withdraw_number set.old k }
    ensures memory { set.new ≡ withdraw_memory set.old k }
{
    Refusal::NotHeld.when(8 < k)?;
    Refusal::NotHeld.when(set[FLAGS + k as usize] == 0)?;
    let at = PLACES + k as usize * PLACE_BYTES;
    fill(&mut set[at..at + PLACE_BYTES], UNREAD);
    set[FLAGS + k as usize] = 0;
    Ok(())
}
