ghost use Rattle.std.specs.Prelude.{◌≡◌, ◌≤◌, pos, ◌≤ℤ◌};
ghost use Rattle.stopping.specs.Stops.{computed_braking, natural};

use crate::speed_reached::SpeedReached;
use units::{Deceleration, Distance, Divisor, FineSpeed, quotient_up};

// A net deceleration that is not too weak to brake by.
#[derive(Clone, Copy, Debug, PartialEq, Eq)]
pub(crate) struct NetDeceleration {
    pub(crate) deceleration: Deceleration,
    ghost strong: { pos 500000 ≤ℤ deceleration.units },
    ghost small: { deceleration.units ≤ℤ pos 2000000000 },
}

impl NetDeceleration {
    // The distance from the speed reached down to the target speed, rounded up.
    pub(crate) fn braking_distance(self, reached: SpeedReached, target: FineSpeed) -> Distance
        requires { target.fine_steps ≤ reached.speed.fine_steps }
        ensures { result.millimetres ≡ computed_braking reached.speed.fine_steps target.fine_steps (natural self.deceleration.units) }
    {
        let (from, to) = (reached.speed.fine_steps, target.fine_steps);
        // by the square that the speed has to lose over twice the deceleration; 625 and 162 turn fine steps and units into mm
        let millimetres = quotient_up(
            625 * (from * from - to * to),
            Divisor {
                value: 162 * (self.deceleration.units as u64),
            },
        );
        Distance { millimetres }
    }
}
