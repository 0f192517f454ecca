// The values of a train sheet that are words. Above each stands the word of the sheet's text. The cases stand in the order of the words of their line.

// The braking model that a sheet names.
#[derive(Clone, Copy, Debug, PartialEq, Eq)]
pub enum Model {
    // scmt
    Scmt,
    // etcs
    Etcs,
}

// How the line is run, on which the top speed depends.
#[derive(Clone, Copy, Debug, PartialEq, Eq)]
pub enum Regime {
    // E
    Operation,
    // P
    Trial,
}

// What a train is made up as, or what its brake is set for.
#[derive(Clone, Copy, Debug, PartialEq, Eq)]
pub enum Service {
    // V
    Passenger,
    // M
    Goods,
}

// Which length the time of the brake pipe is worked out from (lfren).
#[derive(Clone, Copy, Debug, PartialEq, Eq)]
pub enum LengthChoice {
    // LD, a fixed length for the brake setting
    Fixed,
    // LT, the length of the train
    Train,
}
