ghost use Rattle.std.specs.Prelude.{◌≡◌, Some};

use std::error::Error;
use std::fmt;

// Why a question is turned down.
#[derive(Clone, Copy, Debug, PartialEq, Eq)]
pub enum Refusal {
    // a speed is above the model's top speed
    TooFast = 8,
    // the grade is not from the steepest fall to the steepest rise, -35 to 35 thousandths
    GradeOutOfLimits = 9,
    // the target does not bind: the speed is not above the target speed
    NotBinding = 13,
}

impl Refusal {
    ghost use Rattle.braking.specs.Refusals.{number};

    // The number by which the refusal is reported.
    pub fn number(self) -> u8
        ensures { result ≡ number self }
    {
        self as u8
    }
}

// A refusal prints as the answer that it is: `answer=` and its number.
impl fmt::Display for Refusal {
    ghost use Rattle.braking.specs.Refusals.{refusal_text};

    ghost output = { λ r. Some (refusal_text r) };

    fn fmt<W: fmt::Write>(&self, f: &mut fmt::Formatter<W>) -> fmt::Result {
        write!(f, "answer={}", self.number())
    }
}

impl Error for Refusal {}
