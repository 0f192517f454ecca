ghost use Rattle.std.specs.Prelude.{◌≡◌};
ghost use Rattle.calls.specs.Refusals.{number};

// Why a call is refused, with the number that stands for it.
#[derive(Clone, Copy, Debug, PartialEq, Eq)]
pub enum Refusal {
    // a place, or a distance from one, is beyond 1,000,000,000 mm
    PlaceOutOfLimits = 7,
    // the speed of a target or a ceiling is above the model's top speed, or a sample's above 4,000 tenths of km/h
    TooFast = 8,
    // the grade is not from -35 to 35
    GradeOutOfLimits = 9,
    // the place of a section or a ceiling or the number of a target is taken, or nothing stands at the place or with the number that is to be taken out
    Conflict = 10,
    // no more items fit
    Full = 11,
    // the phase is not emergency, or the last accepted call was no sample in zone 0
    NotReleasable = 12,
}

impl Refusal {
    // The number by which the refusal is reported.
    pub fn number(self) -> u8
        ensures { result ≡ number self }
    {
        self as u8
    }
}
