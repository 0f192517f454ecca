ghost use Rattle.std.specs.Prelude.{pos, negsuc, ◌≤ℤ◌};
ghost use Rattle.units.specs.Rounding.{Floored};

use units::{Divisor, signed_quotient_down};

// How many parts of an `ExactLoss` make a fine step.
const PARTS_PER_FINE_STEP: Divisor = Divisor {
    value: 250_000_000_000,
};

// What a slope takes off the speed before the brake acts, exactly, in parts of a fine step; below zero downhill, where it is a gain.
#[derive(Clone, Copy, Debug, PartialEq, Eq)]
pub(crate) struct ExactLoss {
    pub(crate) parts: i64,
    ghost not_below: { negsuc 226799999999999999 ≤ℤ parts },
    ghost not_above: { parts ≤ℤ pos 226800000000000000 },
}

// The same in whole fine steps.
#[derive(Clone, Copy, Debug, PartialEq, Eq)]
pub(crate) struct SpeedLoss {
    pub(crate) fine_steps: i64,
    ghost not_below: { negsuc 907199 ≤ℤ fine_steps },
    ghost not_above: { fine_steps ≤ℤ pos 907200 },
}

impl ExactLoss {
    // Rounded down, so that a gain is rounded up.
    pub(crate) fn in_fine_steps(self) -> SpeedLoss
        ensures { Floored self.parts 250000000000 result.fine_steps }
    {
        SpeedLoss {
            fine_steps: signed_quotient_down(self.parts, PARTS_PER_FINE_STEP),
        }
    }
}
