ghost use Rattle.std.specs.Prelude.{◌≡◌, ◌↔◌, ◌≤ℤ◌, IsTrue, pos, negsuc};
ghost use Rattle.units.specs.declared.limits.TheConstants.{MAX_PLACE, MAX_SPEED, STEEPEST_FALL, STEEPEST_RISE};

use crate::quantities::{Distance, Grade, Speed};

// The furthest place, 1,000 km from where places are counted from.
pub const MAX_PLACE: Distance = Distance {
    millimetres: 1_000_000_000,
};

// The greatest speed that a model or a call may speak of, 400 km/h.
pub const MAX_SPEED: Speed = Speed { tenths: 4_000 };

// The steepest fall and the steepest rise. The track before its first section counts as the steepest fall.
pub const STEEPEST_FALL: Grade = Grade { thousandths: -35 };

pub const STEEPEST_RISE: Grade = Grade { thousandths: 35 };

impl Grade {
    // Whether the grade is from the steepest fall to the steepest rise, both counted.
    pub fn is_within_limits(self) -> bool
        ensures { IsTrue result ↔ (STEEPEST_FALL.thousandths ≤ℤ self.thousandths) × (self.thousandths ≤ℤ STEEPEST_RISE.thousandths) }
    {
        (STEEPEST_FALL..=STEEPEST_RISE).contains(&self)
    }
}

// The limits of every number that a call carries.
#[derive(Clone, Copy, Debug, PartialEq, Eq)]
pub struct Limits {
    pub max_place: Distance,
    pub max_speed: Speed,
    pub steepest_fall: Grade,
    pub steepest_rise: Grade,
}

// The four constants in one value. Definitions speak of the constants by name; the contract here says which numbers they are.
pub fn call_limits() -> Limits
    ensures constants { result ≡ record { max_place = MAX_PLACE; max_speed = MAX_SPEED; steepest_fall = STEEPEST_FALL; steepest_rise = STEEPEST_RISE } }
    ensures max_place { result.max_place.millimetres ≡ 1000000000 }
    ensures max_speed { result.max_speed.tenths ≡ 4000 }
    ensures steepest_fall { result.steepest_fall.thousandths ≡ negsuc 34 }
    ensures steepest_rise { result.steepest_rise.thousandths ≡ pos 35 }
{
    Limits {
        max_place: MAX_PLACE,
        max_speed: MAX_SPEED,
        steepest_fall: STEEPEST_FALL,
        steepest_rise: STEEPEST_RISE,
    }
}
