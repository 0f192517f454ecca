ghost use Rattle.std.specs.Prelude.{◌≤◌, pos, negsuc, ◌≤ℤ◌};
ghost use Rattle.units.specs.declared.limits.TheConstants.{MAX_SPEED};

use crate::brake_deceleration::BrakeDeceleration;
use crate::lead_times::LeadTimes;
use crate::reaction_time::ReactionTime;
use units::{Deceleration, Speed};

// The numbers that a braking from one speed to another is worked out from, within the limits for which the margin of the distances is proved. They are of no model: a model fills them in for a question that it answers.
#[derive(Clone, Copy, Debug, PartialEq, Eq)]
pub struct Stop {
    pub speed: Speed,
    // not necessarily below the speed
    pub target_speed: Speed,
    pub reaction: ReactionTime,
    // what the slope does, below zero downhill
    pub slope: Deceleration,
    // what the brake does, rounded down
    pub braking: BrakeDeceleration,
    pub lead: LeadTimes,
    ghost slow: { speed.tenths ≤ MAX_SPEED.tenths },
    ghost target_slow: { target_speed.tenths ≤ MAX_SPEED.tenths },
    ghost not_steeper_down: { negsuc 4199999 ≤ℤ slope.units },
    ghost not_steeper_up: { slope.units ≤ℤ pos 4200000 },
}
