ghost use Rattle.std.specs.Prelude.{◌≡◌, Some};
ghost use Rattle.calls.specs.Phases.{applies_brake, cuts_traction, phase_word};

use std::fmt;

// What the mission asks of the train, each phase more than the one before.
#[derive(Clone, Copy, Debug, PartialEq, Eq, PartialOrd, Ord)]
pub enum Phase {
    Free,
    Warning,
    Emergency,
}

impl Phase {
    // Whether traction is to be cut.
    pub fn cuts_traction(self) -> bool
        ensures { result ≡ cuts_traction self }
    {
        self >= Phase::Warning
    }

    // Whether the emergency brake is to be on.
    pub fn applies_brake(self) -> bool
        ensures { result ≡ applies_brake self }
    {
        self == Phase::Emergency
    }

    // The word by which the phase is shown.
    pub fn word(self) -> &'static str
        ensures { result.now ≡ phase_word self }
    {
        match self {
            Phase::Free => "free",
            Phase::Warning => "warning",
            Phase::Emergency => "emergency",
        }
    }
}

// A phase prints as its word.
impl fmt::Display for Phase {
    ghost output = { λ p. Some (phase_word p) };

    fn fmt<W: fmt::Write>(&self, f: &mut fmt::Formatter<W>) -> fmt::Result {
        f.write_str(self.word())
    }
}
