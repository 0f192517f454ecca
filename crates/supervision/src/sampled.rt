use calls::{Phase, Zone};

// What an accepted sample answers: the phase after it, and its zone.
#[derive(Clone, Copy, Debug, PartialEq, Eq)]
pub struct Sampled {
    pub phase: Phase,
    pub zone: Zone,
}
