ghost use Rattle.std.specs.Prelude.{◌≡◌};
ghost use Rattle.calls.specs.Zones.{zone_number};

// Within which of its braking distances a train has a target, or how far above a ceiling it is, in the order of their numbers. A sample has the largest zone of its targets and of the ceiling at its front, and control where the train is above the model's top speed.
#[derive(Clone, Copy, Debug, PartialEq, Eq, PartialOrd, Ord)]
pub enum Zone {
    // beyond the nominal distance, or no target binds; not above the ceiling, or there is none
    Clear = 0,
    // within the nominal distance, or above the ceiling
    Nominal = 1,
    // within the warning distance, or more than 50 tenths of km/h above the ceiling
    Warning = 2,
    // within the control distance, or the brake is too weak; or more than 100 tenths of km/h above the ceiling
    Control = 3,
}

impl Zone {
    // The number by which the zone is shown.
    pub fn number(self) -> u8
        ensures { result ≡ zone_number self }
    {
        self as u8
    }
}
