ghost use Rattle.std.specs.Prelude.{◌≡◌, Some};

use std::error::Error;
use std::fmt;

// Why a draft is not admitted.
#[derive(Clone, Copy, Debug, PartialEq, Eq)]
pub enum Refusal {
    // a value is out of its range
    OutOfRange = 4,
    // a goods brake stands with a train that is not a goods train
    GoodsBrake = 6,
}

impl Refusal {
    ghost use Rattle.sheet.specs.Refusals.{number};

    // The number by which the refusal is reported.
    pub fn number(self) -> u8
        ensures { result ≡ number self }
    {
        self as u8
    }
}

// A refusal prints as `answer=` and its number.
impl fmt::Display for Refusal {
    ghost use Rattle.sheet.specs.Refusals.{refusal_text};

    ghost output = { λ r. Some (refusal_text r) };

    fn fmt<W: fmt::Write>(&self, f: &mut fmt::Formatter<W>) -> fmt::Result {
        write!(f, "answer={}", self.number())
    }
}

impl Error for Refusal {}
