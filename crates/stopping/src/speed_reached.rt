ghost use Rattle.std.specs.Prelude.{◌≡◌, ◌*◌, ◌≤◌};
ghost use Rattle.stopping.specs.Stops.{computed_lead, computed_reaction};

use crate::lead_times::LeadTime;
use crate::reaction_time::ReactionTime;
use units::{Distance, Divisor, FineSpeed, quotient_up};

// The speed when the brake acts, at most 500 km/h.
#[derive(Clone, Copy, Debug, PartialEq, Eq, PartialOrd, Ord)]
pub(crate) struct SpeedReached {
    pub(crate) speed: FineSpeed,
    ghost bounded: { speed.fine_steps ≤ 5000000 },
}

impl SpeedReached {
    // The distance run until the brake acts, rounded up.
    pub(crate) fn reaction_distance(self, reaction: ReactionTime) -> Distance
        ensures { result.millimetres ≡ computed_reaction reaction.time.ticks self.speed.fine_steps }
    {
        // a fine step for 3,600,000,000 ticks is a mm
        let millimetres = quotient_up(
            reaction.time.ticks * self.speed.fine_steps,
            Divisor {
                value: 3_600_000_000,
            },
        );
        Distance { millimetres }
    }

    // The distance run in a lead time, rounded up.
    pub(crate) fn lead_distance(self, lead: LeadTime) -> Distance
        ensures { result.millimetres ≡ computed_lead lead.tenths self.speed.fine_steps }
    {
        // a fine step for 360 tenths of a second is a mm
        let millimetres = quotient_up(
            u64::from(lead.tenths) * self.speed.fine_steps,
            Divisor { value: 360 },
        );
        Distance { millimetres }
    }
}
