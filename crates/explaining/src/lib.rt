// Why a record that was expected did not come up, where nothing is refused: it is measured first, and where it costs the radius
// or more the photograph is read.
#![tactic(auto)]

mod place;

ghost use Rattle.std.specs.Prelude.{List, ℕ};
ghost use Rattle.definitions.specs.Accepted.{Expecting};
ghost use Rattle.definitions.specs.Reads.{Explains};
ghost use Rattle.plan.specs.Says.{bytes_of};

use definitions::Reason;
use measuring::Measure;
use plan::Plan;
use plan::kind::Kind;
use reading::Read;
use writing::Write;

// The reason for a record of a mark or of a strip. At most one record costs under the radius: where the expected one does it is
// the answer; else the answer is another, which the reader puts into the lent buffer, or there is none, and then the reader
// leaves the buffer as it was.
pub fn explain<K: Write + Measure + Read>(
    plan: Plan,
    record: &[u8],
    symbols: &[u8],
    doubts: &[u8],
    other: &mut [u8],
) -> Reason
    requires { Expecting K.code (bytes_of plan) symbols.now doubts.now «record».now other.old }
    ensures { Explains K.code (bytes_of plan) symbols.now doubts.now «record».now other.old
        result other.new }
{
    let radius = K::radius(plan);
    let cost = K::measure(plan, record, symbols, doubts).cost;
    if cost < radius {
        return Reason::Answer;
    }
    match K::read(plan, symbols, doubts, other) {
        Ok(_) => Reason::Other {
            place: place::lowest::<K>(plan, record, other, symbols.len()),
        },
        Err(_) => Reason::Nothing {
            excess: cost - radius,
        },
    }
}
