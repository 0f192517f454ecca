ghost use Rattle.std.specs.Prelude.{◌≡◌, ◌++◌, Some, codes, decimal};
ghost use Rattle.sheet_text.specs.Refusals.{number};

use std::error::Error;
use std::fmt;

// Why a sheet is not written.
#[derive(Clone, Copy, Debug, PartialEq, Eq)]
pub enum Refusal {
    // the memory has less than `ROOM` bytes
    NoRoom = 11,
}

impl Refusal {
    // The number by which the refusal is reported.
    pub fn number(self) -> u8
        ensures { result ≡ number self }
    {
        self as u8
    }
}

// A refusal prints as `answer=` and its number.
impl fmt::Display for Refusal {
    ghost output = { λ refusal. Some (codes "answer=" ++ decimal (number refusal)) };

    fn fmt<W: fmt::Write>(&self, f: &mut fmt::Formatter<W>) -> fmt::Result {
        write!(f, "answer={}", self.number())
    }
}

impl Error for Refusal {}
