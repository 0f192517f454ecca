ghost use Rattle.std.specs.Prelude.{◌≡◌};
ghost use Rattle.calls.specs.Answers.{answer_number};

use crate::answer::{Answer, answer_number};
use crate::call::Call;
use crate::phase::Phase;

// A call, what it was answered, and the phase after it.
#[derive(Clone, Copy, Debug, PartialEq, Eq)]
pub struct Record {
    pub call: Call,
    pub answer: Answer,
    pub phase: Phase,
}

impl Record {
    // What memory for records may hold before it is written.
    pub const BLANK: Record = Record {
        call: Call::Release,
        answer: Ok(None),
        phase: Phase::Free,
    };

    // 0 where the call is accepted, else the refusal's number.
    pub fn answer_number(self) -> u8
        ensures { result ≡ answer_number self.answer }
    {
        answer_number(self.answer)
    }
}
