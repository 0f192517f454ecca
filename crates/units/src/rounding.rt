ghost use Rattle.std.specs.Prelude.{◌≡◌, ◌/◌};
ghost use Rattle.units.specs.Rounding.{ceiling, floor, RoundedUp, RoundedDown, Floored};

use crate::divisor::Divisor;

// numerator / denominator, rounded up to a whole number.
pub fn quotient_up(numerator: u64, denominator: Divisor) -> u64
    ensures value { result ≡ ceiling numerator denominator.value }
    ensures meaning { RoundedUp numerator denominator.value result }
{
    numerator.div_ceil(denominator.value)
}

// numerator / denominator, rounded down to a whole number.
pub fn quotient_down(numerator: u64, denominator: Divisor) -> u64
    ensures value { result ≡ numerator / denominator.value }
    ensures meaning { RoundedDown numerator denominator.value result }
{
    numerator / denominator.value
}

// numerator / denominator, rounded down to a whole number below zero too: -1 over 2 gives -1, where Rust's `/` gives 0.
pub fn signed_quotient_down(numerator: i64, denominator: Divisor) -> i64
    ensures value { result ≡ floor numerator denominator.value }
    ensures meaning { Floored numerator denominator.value result }
{
    // in 128 bits, since a divisor may be above every i64; the quotient is never further from 0 than the numerator
    i128::from(numerator).div_euclid(i128::from(denominator.value)) as i64
}
