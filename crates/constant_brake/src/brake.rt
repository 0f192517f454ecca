ghost use Rattle.std.specs.Prelude.{◌≤◌};
ghost use Rattle.units.specs.declared.limits.TheConstants.{MAX_SPEED};

use crate::brake_data::BrakeData;
use stopping::LeadTimes;

// A maker's brake: numbers that are in their ranges, by the type, and the warning and hysteresis time of a train sheet.
#[derive(Clone, Copy, Debug, PartialEq, Eq)]
pub struct ConstantBrake {
    pub(crate) stated: BrakeData,
    pub(crate) lead: LeadTimes,
    ghost not_weaker: { 300 ≤ stated.deceleration },
    ghost not_stronger: { stated.deceleration ≤ 2000 },
    ghost brief: { stated.reaction ≤ 200 },
    ghost slow: { stated.top.tenths ≤ MAX_SPEED.tenths },
}
