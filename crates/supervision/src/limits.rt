ghost use Rattle.std.specs.Prelude.{◌≡◌, [], ◌∷◌};
ghost use Rattle.braking.specs.Meaning.{Meaning};
ghost use Rattle.calls.specs.declared.call.Call.TheVariants.{Ceiling, Sample, Slope};
ghost use Rattle.history.specs.Step.{first, limits, too_far, too_fast};
ghost use Rattle.supervision.specs.Limits.{refusal_in};

use braking::TopSpeed;
use calls::Refusal;
use units::{Distance, Grade, MAX_PLACE, MAX_SPEED, Speed};

// Whether a place is at most the furthest.
pub(crate) fn check_place(place: Distance) -> Result<(), Refusal>
    ensures { first (too_far place.millimetres ∷ []) ≡ refusal_in result }
{
    if place > MAX_PLACE {
        return Err(Refusal::PlaceOutOfLimits);
    }
    Ok(())
}

// Whether a speed is at most the greatest.
pub(crate) fn check_speed(speed: Speed, greatest: Speed) -> Result<(), Refusal>
    ensures { first (too_fast greatest.tenths speed.tenths ∷ []) ≡ refusal_in result }
{
    if speed > greatest {
        return Err(Refusal::TooFast);
    }
    Ok(())
}

// Whether a section's place and grade are within limits.
pub(crate) fn check_slope(place: Distance, grade: Grade) -> Result<(), Refusal>
    ensures { (m : Meaning) → first (limits m (Slope place grade)) ≡ refusal_in result }
{
    check_place(place)?;
    if !grade.is_within_limits() {
        return Err(Refusal::GradeOutOfLimits);
    }
    Ok(())
}

// Whether a ceiling's place is within limits, and its speed at most the model's top speed.
pub(crate) fn check_ceiling(place: Distance, speed: Speed, top: TopSpeed) -> Result<(), Refusal>
    ensures { (m : Meaning) → m.top ≡ top.speed.tenths → first (limits m (Ceiling place speed)) ≡ refusal_in result }
{
    check_place(place)?;
    check_speed(speed, top.speed)
}

// Whether a sample's place and speed are within limits, which no model sets.
pub(crate) fn check_sample(place: Distance, speed: Speed) -> Result<(), Refusal>
    ensures { (m : Meaning) → first (limits m (Sample place speed)) ≡ refusal_in result }
{
    check_place(place)?;
    check_speed(speed, MAX_SPEED)
}
