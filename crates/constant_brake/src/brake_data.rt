use units::Speed;

// What a maker states of a brake that slows the train equally at every speed, a fixed time after it is called for. Any numbers may stand here: `ConstantBrake::new` asks whether they are in range.
#[derive(Clone, Copy, Debug, PartialEq, Eq)]
pub struct BrakeData {
    // the deceleration on the level, in mm/s²
    pub deceleration: u16,
    // how long the brake takes to act, in tenths of a second
    pub reaction: u16,
    // the greatest speed that the brake is made for, in tenths of km/h
    pub top: Speed,
}
