ghost use Rattle.std.specs.Prelude.{◌≤◌};

// A time by which one distance leads another, in tenths of a second, at most 10 s.
#[derive(Clone, Copy, Debug, PartialEq, Eq)]
pub struct LeadTime {
    pub tenths: u16,
    ghost brief: { tenths ≤ 100 },
}

// By how long the warning distance leads the control distance, and the nominal distance the warning distance.
#[derive(Clone, Copy, Debug, PartialEq, Eq)]
pub struct LeadTimes {
    pub warning: LeadTime,
    pub hysteresis: LeadTime,
}
