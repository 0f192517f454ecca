ghost use Rattle.std.specs.Prelude.{◌≡◌, Some};

use std::error::Error;
use std::fmt;

// Why a maker's numbers make no brake.
#[derive(Clone, Copy, Debug, PartialEq, Eq)]
pub enum Refusal {
    // the deceleration is not from 300 to 2,000 mm/s²
    DecelerationOutOfRange = 21,
    // the reaction time is above 200 tenths of a second
    ReactionTooLong = 22,
    // the top speed is above 4,000 tenths of km/h
    TopSpeedTooHigh = 23,
}

impl Refusal {
    ghost use Rattle.constant_brake.specs.Refusals.{number};

    // The number by which the refusal is known outside; a maker's begin at 21.
    pub fn number(self) -> u8
        ensures { result ≡ number self }
    {
        self as u8
    }
}

// A refusal prints as the answer that it is: `answer=` and its number.
impl fmt::Display for Refusal {
    ghost use Rattle.constant_brake.specs.Refusals.{refusal_text};

    ghost output = { λ r. Some (refusal_text r) };

    fn fmt<W: fmt::Write>(&self, f: &mut fmt::Formatter<W>) -> fmt::Result {
        write!(f, "answer={}", self.number())
    }
}

impl Error for Refusal {}
