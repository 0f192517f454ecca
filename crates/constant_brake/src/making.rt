ghost use Rattle.std.specs.Prelude.{◌≡◌};
ghost use Rattle.constant_brake.specs.Making.{MakesBrake};
ghost use Rattle.constant_brake.specs.Ranges.{deceleration_fits, reaction_fits, top_fits};

use crate::brake::ConstantBrake;
use crate::brake_data::BrakeData;
use crate::refusal::Refusal;
use sheet::Admitted;
use stopping::{LeadTime, LeadTimes};
use units::MAX_SPEED;

// The least and the greatest deceleration, in mm/s².
const WEAKEST: u16 = 300;

const STRONGEST: u16 = 2_000;

// The longest reaction time, in tenths of a second.
const LONGEST: u16 = 200;

impl BrakeData {
    // Whether the deceleration is in its range.
    fn deceleration_fits(self) -> bool
        ensures { result ≡ deceleration_fits self.deceleration }
    {
        (WEAKEST..=STRONGEST).contains(&self.deceleration)
    }

    // Whether the reaction time is in its range.
    fn reaction_fits(self) -> bool
        ensures { result ≡ reaction_fits self.reaction }
    {
        self.reaction <= LONGEST
    }

    // Whether the top speed is in its range.
    fn top_fits(self) -> bool
        ensures { result ≡ top_fits self.top.tenths }
    {
        self.top <= MAX_SPEED
    }
}

impl ConstantBrake {
    // The brake that a maker states, with the warning and the hysteresis time of an admitted sheet, or the first number of the maker's that is out of its range.
    pub fn new(stated: BrakeData, sheet: &Admitted) -> Result<ConstantBrake, Refusal>
        ensures { MakesBrake stated sheet.now.values result }
    {
        if !stated.deceleration_fits() {
            return Err(Refusal::DecelerationOutOfRange);
        }
        if !stated.reaction_fits() {
            return Err(Refusal::ReactionTooLong);
        }
        if !stated.top_fits() {
            return Err(Refusal::TopSpeedTooHigh);
        }
        let values = sheet.values();
        Ok(ConstantBrake {
            stated,
            lead: LeadTimes {
                warning: LeadTime { tenths: values.tw },
                hysteresis: LeadTime { tenths: values.ti },
            },
        })
    }
}
