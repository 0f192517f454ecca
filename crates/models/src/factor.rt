ghost use Rattle.std.specs.Prelude.{◌≡◌, ◌*◌, ◌/◌, ◌<◌, ◌≤◌};

use stopping::BrakeDeceleration;
use units::{Divisor, quotient_down};

// A factor of a brake's deceleration, at most 2.
#[derive(Clone, Copy, Debug, PartialEq, Eq)]
pub(crate) struct Factor {
    pub(crate) numerator: u64,
    pub(crate) denominator: u64,
    ghost positive: { 0 < denominator },
    ghost numerator_small: { numerator ≤ 1000000 },
    ghost denominator_small: { denominator ≤ 1000000 },
    ghost at_most_two: { numerator ≤ 2 * denominator },
}

impl Factor {
    // A deceleration times the factor, rounded down.
    pub(crate) fn scale(self, deceleration: BrakeDeceleration) -> BrakeDeceleration
        requires { deceleration.units ≤ 500000000 }
        ensures value { result.units ≡ deceleration.units * self.numerator / self.denominator }
        ensures bounded { result.units ≤ 2 * deceleration.units }
    {
        let units = quotient_down(
            deceleration.units * self.numerator,
            Divisor {
                value: self.denominator,
            },
        );
        BrakeDeceleration { units }
    }
}
