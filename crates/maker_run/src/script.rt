use calls::Call;
use constant_brake::BrakeData;
use place_list::Placed;
use sheet::{LengthChoice, Model, Regime, Service, Values};
use units::{Distance, Grade, Speed};

// What the maker states of the brake.
pub(crate) const BRAKE: BrakeData = BrakeData {
    deceleration: 900,
    reaction: 25,
    top: Speed { tenths: 1_600 },
};

// The train sheet. Of it the mission takes the length and eps, and the brake tw and ti; the rest is for scmt and etcs.
pub(crate) const SHEET: Values = Values {
    model: Model::Etcs,
    regime: Regime::Operation,
    train: Service::Passenger,
    brake: Service::Passenger,
    ep: 0,
    lambda: 100,
    length: 200,
    lfren: LengthChoice::Train,
    kr: 100,
    tw: 20,
    ti: 30,
    eps: 2,
};

// The track falls, and more so between the bend and the foot. Once the front of the train has passed the foot, its rear stays on the steep part for another 200 m.
const START: Distance = Distance { millimetres: 0 };

const BEND: Distance = Distance {
    millimetres: 1_500_000,
};

const FOOT: Distance = Distance {
    millimetres: 2_000_000,
};

const GENTLE: Grade = Grade { thousandths: -4 };

const STEEP: Grade = Grade { thousandths: -12 };

pub(crate) const SECTIONS: [Placed<Grade>; 3] = [
    Placed {
        place: START,
        item: GENTLE,
    },
    Placed {
        place: BEND,
        item: STEEP,
    },
    Placed {
        place: FOOT,
        item: GENTLE,
    },
];

// Where the target is announced, how far beyond that it stands, and the speed that it allows.
pub(crate) const POINT: Distance = Distance {
    millimetres: 200_000,
};

pub(crate) const DISTANCE: Distance = Distance {
    millimetres: 2_400_000,
};

pub(crate) const ALLOWED: Speed = Speed { tenths: 300 };

// Behind the target a yard begins, where no more than 15 km/h is allowed.
const YARD: Distance = Distance {
    millimetres: 2_600_000,
};

const YARD_SPEED: Speed = Speed { tenths: 150 };

// The calls: the track, the target and the yard, then the train runs up to the one and into the other.
pub(crate) const CALLS: [Call; 25] = [
    Call::Slope {
        place: START,
        grade: GENTLE,
    },
    Call::Slope {
        place: BEND,
        grade: STEEP,
    },
    Call::Slope {
        place: FOOT,
        grade: GENTLE,
    },
    Call::Announce {
        number: 1,
        point: POINT,
        distance: DISTANCE,
        speed: ALLOWED,
    },
    Call::Ceiling {
        place: YARD,
        speed: YARD_SPEED,
    },
    Call::Sample {
        place: Distance {
            millimetres: 500_000,
        },
        speed: Speed { tenths: 1_400 },
    },
    Call::Sample {
        place: Distance {
            millimetres: 1_350_000,
        },
        speed: Speed { tenths: 1_400 },
    },
    Call::Sample {
        place: Distance {
            millimetres: 1_460_000,
        },
        speed: Speed { tenths: 1_400 },
    },
    Call::Sample {
        place: Distance {
            millimetres: 1_540_000,
        },
        speed: Speed { tenths: 1_400 },
    },
    Call::Release,
    Call::Sample {
        place: Distance {
            millimetres: 1_900_000,
        },
        speed: Speed { tenths: 1_000 },
    },
    Call::Release,
    Call::Sample {
        place: Distance {
            millimetres: 2_050_000,
        },
        speed: Speed { tenths: 600 },
    },
    Call::Release,
    Call::Sample {
        place: Distance {
            millimetres: 2_552_000,
        },
        speed: Speed { tenths: 290 },
    },
    Call::Sample {
        place: Distance {
            millimetres: 2_599_999,
        },
        speed: Speed { tenths: 290 },
    },
    Call::Sample {
        place: Distance {
            millimetres: 2_600_000,
        },
        speed: Speed { tenths: 220 },
    },
    Call::Sample {
        place: Distance {
            millimetres: 2_640_000,
        },
        speed: Speed { tenths: 251 },
    },
    Call::Release,
    Call::Sample {
        place: Distance {
            millimetres: 2_660_000,
        },
        speed: Speed { tenths: 160 },
    },
    Call::Release,
    Call::Sample {
        place: Distance {
            millimetres: 2_680_000,
        },
        speed: Speed { tenths: 150 },
    },
    Call::Release,
    Call::Lift { place: YARD },
    Call::Sample {
        place: Distance {
            millimetres: 2_700_000,
        },
        speed: Speed { tenths: 300 },
    },
];
