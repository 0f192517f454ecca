use constant_brake::BrakeData;
use sheet::{LengthChoice, Model, Regime, Service, Values};
use units::Speed;

// The sheet that tw and ti are taken from.
pub(crate) const SHEET: Values = Values {
    model: Model::Scmt,
    regime: Regime::Operation,
    train: Service::Passenger,
    brake: Service::Passenger,
    ep: 0,
    lambda: 100,
    length: 200,
    lfren: LengthChoice::Fixed,
    kr: 100,
    tw: 20,
    ti: 30,
    eps: 2,
};

// Speed, target speed and grade of each question.
pub(crate) const QUESTIONS: [(u64, u64, i64); 19] = [
    (1000, 0, 0),
    (1000, 300, 10),
    (1000, 300, -10),
    (1600, 1599, -20),
    (1601, 0, 0),
    (4000, 0, -35),
    (4000, 3999, 35),
    (1000, 0, -23),
    (1000, 0, -24),
    (1500, 0, -35),
    (1, 0, -35),
    (1, 0, 35),
    (4001, 0, 0),
    (0, 4001, 0),
    (1000, 0, -36),
    (1000, 0, 36),
    (300, 300, 0),
    (0, 0, -21),
    (1500, 100, -21),
];

// Good numbers, at the ends of their ranges too, then numbers that are refused.
pub(crate) const BRAKES: [BrakeData; 12] = [
    BrakeData {
        deceleration: 900,
        reaction: 25,
        top: Speed { tenths: 1_600 },
    },
    BrakeData {
        deceleration: 300,
        reaction: 0,
        top: Speed { tenths: 4_000 },
    },
    BrakeData {
        deceleration: 300,
        reaction: 200,
        top: Speed { tenths: 4_000 },
    },
    BrakeData {
        deceleration: 427,
        reaction: 33,
        top: Speed { tenths: 1_500 },
    },
    BrakeData {
        deceleration: 428,
        reaction: 33,
        top: Speed { tenths: 1_500 },
    },
    BrakeData {
        deceleration: 2_000,
        reaction: 200,
        top: Speed { tenths: 4_000 },
    },
    BrakeData {
        deceleration: 2_000,
        reaction: 0,
        top: Speed { tenths: 0 },
    },
    BrakeData {
        deceleration: 299,
        reaction: 201,
        top: Speed { tenths: 4_001 },
    },
    BrakeData {
        deceleration: 2_001,
        reaction: 0,
        top: Speed { tenths: 0 },
    },
    BrakeData {
        deceleration: 300,
        reaction: 201,
        top: Speed { tenths: 4_001 },
    },
    BrakeData {
        deceleration: 2_000,
        reaction: 200,
        top: Speed { tenths: 4_001 },
    },
    BrakeData {
        deceleration: 65_535,
        reaction: 65_535,
        top: Speed { tenths: u64::MAX },
    },
];
