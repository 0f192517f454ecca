ghost use Rattle.std.specs.Prelude.{◌≡◌, ◌+◌, ◌-◌, ◌*◌, ◌≤◌, if◌then◌else◌};
ghost use Rattle.models.specs.Formulas.{pipe_length, pipe_time_by};

use crate::admissible_values::AdmissibleValues;
use crate::numbers;
use crate::pipe_time::PipeTime;
use sheet::{LengthChoice, Service};

// A length of the brake pipe in m, at most 1,000.
#[derive(Clone, Copy, Debug, PartialEq, Eq, PartialOrd, Ord)]
pub(crate) struct PipeLength {
    pub(crate) metres: u64,
    ghost short: { metres ≤ 1000 },
}

// How long a brake pipe takes to carry the braking to its end: a fixed time, and more for each square metre of the square of its length.
#[derive(Clone, Copy, Debug, PartialEq, Eq)]
pub(crate) struct PipeTimeRule {
    pub(crate) fixed: PipeTime,
    pub(crate) per_square_metre: PipeTime,
    ghost bounded: { fixed.microseconds + 1000000 * per_square_metre.microseconds ≤ 18500000 },
}

impl PipeLength {
    // The length that the pipe is taken to have.
    pub(crate) fn of(sheet: &AdmissibleValues) -> PipeLength
        ensures { result.metres ≡ pipe_length sheet.now.values.lfren sheet.now.values.brake sheet.now.values.length }
    {
        let values = sheet.values;
        match (values.lfren, values.brake) {
            (LengthChoice::Train, _) => PipeLength {
                metres: u64::from(values.length),
            },
            (LengthChoice::Fixed, Service::Passenger) => numbers::PASSENGER_LENGTH,
            (LengthChoice::Fixed, Service::Goods) => numbers::GOODS_LENGTH,
        }
    }

    // The length that counts: none where the electro-pneumatic brake works, which calls for the braking along the whole train at once.
    fn length_counted(self, ep: bool) -> PipeLength
        ensures { result.metres ≡ self.metres * (1 - (if ep then 1 else 0)) }
    {
        if ep { PipeLength { metres: 0 } } else { self }
    }

    // The time of a pipe of this length by a rule.
    fn time_by(self, rule: PipeTimeRule) -> PipeTime
        ensures { result.microseconds ≡ rule.fixed.microseconds + rule.per_square_metre.microseconds * (self.metres * self.metres) }
    {
        PipeTime {
            microseconds: rule.fixed.microseconds
                + rule.per_square_metre.microseconds * (self.metres * self.metres),
        }
    }

    // The time until the pipe has carried the braking to its end.
    pub(crate) fn braking_time(self, brake: Service, ep: bool) -> PipeTime
        ensures { result.microseconds ≡ pipe_time_by brake self.metres (if ep then 1 else 0) }
    {
        let passenger = self
            .length_counted(ep)
            .time_by(numbers::PASSENGER_PIPE_TIME);
        match brake {
            Service::Passenger => passenger,
            Service::Goods => passenger.max(self.time_by(numbers::GOODS_PIPE_TIME)),
        }
    }
}
