// Reading marks and strips, where no refusal of the plan and of the arguments applies: what the calls do after their checks.
#![tactic(auto)]

pub mod load;
pub mod mark;
pub mod strip;

ghost use Rattle.std.specs.Prelude.{◌≡◌, List, ℕ, MatchResult};
ghost use Rattle.definitions.specs.Numbers.{answered};
ghost use Rattle.definitions.specs.declared.Refusal.TheVariants.{NoneNear};
ghost use Rattle.definitions.specs.Reads.{Reads};
ghost use Rattle.plan.specs.Says.{bytes_of};
ghost use Rattle.reading.specs.Loading.{Taken};

use definitions::{Reading, Refusal};
use plan::Plan;
use plan::kind::Kind;

// A kind of code whose photographs can be read.
pub trait Read: Kind {
    // The one record within the radius goes into the lent buffer; where there is none the buffer stays as it was, and that is the
    // refusal.
    fn read(
        plan: Plan,
        symbols: &[u8],
        doubts: &[u8],
        record: &mut [u8],
    ) -> Result<Reading, Refusal>
        requires { Taken Self.code (bytes_of plan) symbols.now doubts.now «record».old }
        ensures reads { Reads Self.code (bytes_of plan) symbols.now doubts.now «record».old (answered result) «record».new }
        ensures only { MatchResult result (λ r. r.number ≡ 0) (λ e. e ≡ NoneNear) };
}
