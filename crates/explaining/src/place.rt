// The lowest place at which the marks of two records differ.
ghost use Rattle.std.specs.Prelude.{◌≡◌, not, List, ℕ, ◌<◌, eqb, length};
ghost use Rattle.bounded.specs.Bounded.{at, index};
ghost use Rattle.definitions.specs.Code.{cells, IsRecord};
ghost use Rattle.definitions.specs.Explaining.{differing_place};
ghost use Rattle.definitions.specs.Accepted.{Writing};
ghost use Rattle.plan.specs.Says.{bytes_of};

use plan::Plan;
use writing::Write;

// The records' marks, or strips, have n cells.
pub fn lowest<K: Write>(plan: Plan, record: &[u8], other: &[u8], n: usize) -> u32
    requires { IsRecord K.code (bytes_of plan) «record».now × IsRecord K.code (bytes_of plan) other.now
        × (n ≡ cells K.code (bytes_of plan)) }
    ensures { result ≡ differing_place K.code (bytes_of plan) «record».now other.now }
{
    let mut expected = [0u8; 256];
    let mut found = [0u8; 256];
    lowest_between::<K>(plan, record, other, &mut expected[..n], &mut found[..n])
}

// Both are written, and compared.
fn lowest_between<K: Write>(
    plan: Plan,
    record: &[u8],
    other: &[u8],
    expected: &mut [u8],
    found: &mut [u8],
) -> u32
    requires { Writing K.code (bytes_of plan) «record».now expected.old
        × Writing K.code (bytes_of plan) other.now found.old }
    ensures { result ≡ differing_place K.code (bytes_of plan) «record».now other.now }
{
    K::write(plan, record, expected);
    K::write(plan, other, found);
    first_difference(expected, found)
}

// Where two lists of one length first differ, or their length.
fn first_difference(a: &[u8], b: &[u8]) -> u32
    requires { (length a.now ≡ length b.now) × (length a.now < 65536) }
    ensures { result ≡ index (length a.now) (λ c. not (eqb (at a.now c) (at b.now c))) }
{
    for (c, byte) in a.iter().enumerate() {
        if *byte != b[c] {
            return c as u32;
        }
    }
    a.len() as u32
}
