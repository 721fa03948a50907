// The kinds of code that a plan speaks of, marks and strips. What differs between them is in the impls of traits on these two
// types, here and in the crates above; what does not is generic.
ghost use Rattle.std.specs.Prelude.{◌≡◌, ◌<◌};
ghost use Rattle.definitions.specs.Code.{Code, strip, oblong, size, cells};
ghost use Rattle.definitions.specs.Cost.{radius as radius_of};
ghost use Rattle.plan.specs.Says.{bytes_of};

use crate::Plan;
use distance::word;
use polynomial::bivariate::start;
use polynomial::limit;

// A kind of code, and what a plan says of it.
pub trait Kind {
    // Which code it is.
    ghost code: { Code };

    // How many coefficients a record has.
    fn record_size(plan: Plan) -> usize
        ensures { result ≡ size code (bytes_of plan) };

    // How many cells there are.
    fn cell_count(plan: Plan) -> usize
        ensures { result ≡ cells code (bytes_of plan) };

    // R.
    fn radius(plan: Plan) -> u32
        ensures is { result ≡ radius_of code (bytes_of plan) }
        ensures most { result < 2147483648 };
}

// Marks: records of polynomials in X and Y, on rows and columns.
pub struct Mark;

// Strips: records of polynomials in X, on the row points.
pub struct Strip;

impl Kind for Mark {
    ghost code = { oblong };

    fn record_size(plan: Plan) -> usize {
        start(plan.grid.d + 1)
    }

    fn cell_count(plan: Plan) -> usize {
        plan.grid.a * plan.grid.b
    }

    fn radius(plan: Plan) -> u32 {
        limit::radius(plan.grid)
    }
}

impl Kind for Strip {
    ghost code = { strip };

    fn record_size(plan: Plan) -> usize {
        plan.grid.d + 1
    }

    fn cell_count(plan: Plan) -> usize {
        plan.grid.a
    }

    fn radius(plan: Plan) -> u32 {
        let g = plan.grid;
        word::radius(g.full, 1, g.a, g.d)
    }
}
