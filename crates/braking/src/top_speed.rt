ghost use Rattle.std.specs.Prelude.{◌≤◌};
ghost use Rattle.units.specs.declared.limits.TheConstants.{MAX_SPEED};

use units::Speed;

// The greatest speed that a braking model answers for, at most 400 km/h.
#[derive(Clone, Copy, Debug, PartialEq, Eq)]
pub struct TopSpeed {
    pub speed: Speed,
    ghost bounded: { speed.tenths ≤ MAX_SPEED.tenths },
}
