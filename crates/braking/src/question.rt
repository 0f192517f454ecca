use units::{Grade, Speed};

// What a braking model is asked: how far a train runs on from its speed down to the target's. The grade is the least from the rear of the train to the target, or to its front once the target is passed. Any numbers may be asked about; a model turns those down that are out of limits.
#[derive(Clone, Copy, Debug, PartialEq, Eq)]
pub struct Question {
    pub speed: Speed,
    pub target_speed: Speed,
    pub grade: Grade,
}
