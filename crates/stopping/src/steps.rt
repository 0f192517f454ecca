use braking::Distances;
use units::{Deceleration, FineSpeed, Time};

// The steps from a question to its answer, in order.
#[derive(Clone, Copy, Debug, PartialEq, Eq)]
pub struct Steps {
    // how long the brake takes to act
    pub reaction: Time,
    // what the slope does, below zero downhill
    pub slope: Deceleration,
    // the speed that the train has when the brake acts, rounded up
    pub reached: FineSpeed,
    // what brake and slope do together, rounded down
    pub net: Deceleration,
    // the three distances, none where the brake is too weak
    pub answer: Option<Distances>,
}
