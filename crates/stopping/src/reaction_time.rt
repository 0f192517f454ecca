ghost use Rattle.std.specs.Prelude.{◌≤◌};

use units::Time;

// How long a brake takes to act once it is called for, at most a minute.
#[derive(Clone, Copy, Debug, PartialEq, Eq)]
pub struct ReactionTime {
    pub time: Time,
    ghost brief: { time.ticks ≤ 6000000000 },
}
