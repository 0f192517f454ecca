ghost use Rattle.std.specs.Prelude.{◌≡◌, Some};

use call_text::CallFault;
use calls::{Phase, Record, Zone};
use std::fmt;

// What is shown of a call line: the number of its answer, the phase after it, and the zone of an accepted sample.
// An accepted call has the number 0; a fault and a refusal have a number and no zone.
#[derive(Clone, Copy, Debug, PartialEq, Eq)]
pub struct Shown {
    pub number: u8,
    pub phase: Phase,
    pub zone: Option<Zone>,
}

impl Shown {
    // What memory for what is shown may hold before it is written.
    pub const BLANK: Shown = Shown {
        number: 0,
        phase: Phase::Free,
        zone: None,
    };

    ghost use Rattle.session.specs.Answers.{of_fault};

    // What is shown of a line that is no call, with the phase so far.
    pub fn of_fault(fault: CallFault, phase: Phase) -> Shown
        ensures { result ≡ of_fault fault phase }
    {
        Shown {
            number: fault.number(),
            phase,
            zone: None,
        }
    }
}

impl From<Record> for Shown {
    ghost use Rattle.session.specs.Answers.{of_record};

    ghost from_gives = { λ e r. r ≡ of_record e };

    fn from(entry: Record) -> Shown {
        Shown {
            number: entry.answer_number(),
            phase: entry.phase,
            zone: entry.answer.unwrap_or(None),
        }
    }
}

// Prints as `answer=N phase=P zone=Z`, with a dash where there is no zone.
impl fmt::Display for Shown {
    ghost use Rattle.session.specs.Printed.{shown_text};

    ghost output = { λ s. Some (shown_text s) };

    fn fmt<W: fmt::Write>(&self, f: &mut fmt::Formatter<W>) -> fmt::Result {
        write!(f, "answer={} phase={} zone=", self.number, self.phase)?;
        match self.zone {
            Some(zone) => write!(f, "{}", zone.number()),
            None => f.write_str("-"),
        }
    }
}
