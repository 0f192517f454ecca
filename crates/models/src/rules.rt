ghost use Rattle.std.specs.Prelude.{◌≡◌, if◌then◌else◌};
ghost use Rattle.sheet.specs.declared.words.Model.{Model};
ghost use Rattle.stopping.specs.Factors.{product_down};
ghost use Rattle.models.specs.Formulas.{base_deceleration, counted_ep, delay, factors, pipe_share, top};

use crate::admissible_values::AdmissibleValues;
use crate::share::Share;
use braking::{Approach, TopSpeed};
use sheet::Regime;
use stopping::BrakeDeceleration;
use units::Time;

// What differs between the rules of scmt and those of etcs.
pub trait Rules {
    ghost name: { Model };

    fn top_speed(regime: Regime) -> TopSpeed
        ensures { result.speed.tenths ≡ top name regime };

    // Whether the electro-pneumatic brake is counted.
    fn counts_ep(sheet: &AdmissibleValues) -> bool
        ensures { counted_ep name sheet.now.values ≡ if result then 1 else 0 };

    // The share of the pipe time that is counted.
    fn pipe_share(sheet: &AdmissibleValues, approach: Approach) -> Share
        ensures { result.hundredths ≡ pipe_share name sheet.now.values approach.speed approach.target_speed };

    // How long the equipment takes to call for the brake.
    fn delay() -> Time
        ensures { result.ticks ≡ delay name };

    // What the brake does by itself: the factors one after the other, each product rounded down.
    fn brake_deceleration(sheet: &AdmissibleValues, approach: Approach) -> BrakeDeceleration
        ensures { result.units ≡ product_down (base_deceleration sheet.now.values.lambda) (factors name sheet.now.values approach.speed approach.target_speed) };
}
