// Whether a number is prime: of single numbers the plan's check asks no more, and all other field work is by rows.
ghost use Rattle.std.specs.Prelude.{◌≡◌, not, ◌&&◌, ◌%◌, ◌<◌, eqb};
ghost use Rattle.field.specs.Prime.{is_prime};

// Whether p is prime. A byte from 2 on that is not has a divisor among the primes up to 13: the square of 17 is above 255. The
// divisors are constants, so that each costs a product and no division.
pub fn is_prime(p: u8) -> bool
    ensures { result ≡ is_prime p }
{
    (1 < p)
        & !(splits(2, p)
            | splits(3, p)
            | splits(5, p)
            | splits(7, p)
            | splits(11, p)
            | splits(13, p))
}

// Whether a number divides p and is not p.
fn splits(divisor: u8, p: u8) -> bool
    requires { 0 < divisor }
    ensures { result ≡ (eqb (p % divisor) 0 && not (eqb p divisor)) }
{
    (p % divisor == 0) & (p != divisor)
}
