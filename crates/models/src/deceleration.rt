// The deceleration of a brake before its factors, and its five factors in the order of docs/MODELS.md.

ghost use Rattle.std.specs.Prelude.{◌≡◌, ◌-◌, ◌*◌, ◌≤◌, if◌then◌else◌, nat_lt};
ghost use Rattle.units.specs.Fractions.{whole, ratio};
ghost use Rattle.models.specs.Formulas.{base_deceleration, high_speed_factor, target_factor};
ghost use Rattle.models.specs.Scaling.{HasValue};

use crate::admissible_values::AdmissibleValues;
use crate::factor::Factor;
use crate::numbers;
use braking::Approach;
use stopping::BrakeDeceleration;
use units::Speed;

// In place of a factor that does not hold.
const ONE: Factor = Factor {
    numerator: 1,
    denominator: 1,
};

// The deceleration of the brake before its factors, by the braked weight percentage lambda.
pub(crate) fn base_deceleration(sheet: &AdmissibleValues) -> BrakeDeceleration
    ensures value { result.units ≡ base_deceleration sheet.now.values.lambda }
    ensures bounded { result.units ≤ 12000000 }
{
    let hundreds = numbers::HUNDREDS_PER_PERCENT * u64::from(sheet.values.lambda)
        + numbers::HUNDREDS_AT_ZERO;
    BrakeDeceleration {
        units: 100 * hundreds,
    }
}

// The first factor: the brake fades above VL.
pub(crate) fn fading_factor(vl: Speed, approach: Approach) -> Factor
    ensures { HasValue (if nat_lt vl.tenths approach.speed then ratio (100000 - 21 * (approach.speed - vl.tenths)) 100000 else whole 1) result }
{
    let speed = approach.speed();
    if speed > vl {
        Factor {
            numerator: 100_000 - numbers::FADING * (speed - vl).tenths,
            denominator: 100_000,
        }
    } else {
        ONE
    }
}

// The second factor: kr hundredths, the share of the braking that is counted on.
pub(crate) fn kr_factor(sheet: &AdmissibleValues) -> Factor
    ensures { HasValue (ratio sheet.now.values.kr 100) result }
{
    Factor {
        numerator: u64::from(sheet.values.kr),
        denominator: 100,
    }
}

// The third factor: above 150 km/h the brake does better the faster the train is.
pub(crate) fn high_speed_factor(approach: Approach) -> Factor
    ensures { HasValue (if nat_lt 1500 approach.speed then high_speed_factor approach.speed else whole 1) result }
{
    let speed = approach.speed();
    if speed > numbers::HIGH_SPEED {
        Factor {
            numerator: numbers::HIGH_SPEED_BASE + speed.tenths,
            denominator: 10_000,
        }
    } else {
        ONE
    }
}

// The fourth factor: above 260 km/h less is counted on.
pub(crate) fn very_high_speed_factor(approach: Approach) -> Factor
    ensures { HasValue (if nat_lt 2600 approach.speed then ratio 80 100 else whole 1) result }
{
    if approach.speed() > numbers::VERY_HIGH_SPEED {
        Factor {
            numerator: numbers::VERY_HIGH_SPEED_SHARE,
            denominator: 100,
        }
    } else {
        ONE
    }
}

// The fifth factor: five hundredths of the target speed over the speed are taken off.
pub(crate) fn target_factor(approach: Approach) -> Factor
    ensures { HasValue (target_factor approach.speed approach.target_speed) result }
{
    let (speed, target) = (approach.speed().tenths, approach.target_speed().tenths);
    Factor {
        numerator: 100 * speed - numbers::TARGET_SHARE * target,
        denominator: 100 * speed,
    }
}
