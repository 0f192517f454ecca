ghost use Rattle.std.specs.Prelude.{◌≤◌};

// What a brake does by itself on the level, in units of deceleration, ten million to one m/s². It is never below zero, and at most 100 m/s².
#[derive(Clone, Copy, Debug, PartialEq, Eq)]
pub struct BrakeDeceleration {
    pub units: u64,
    ghost bounded: { units ≤ 1000000000 },
}
