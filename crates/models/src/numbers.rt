// The numbers of the two models. Elsewhere stand the top speeds and the table of VL, with each model's rules, the scales of the factors, in `deceleration.rt`, and the shares of a grade, which every model has, in the crate `stopping`.

use crate::pipe_length::{PipeLength, PipeTimeRule};
use crate::pipe_time::PipeTime;
use crate::share::Share;
use units::{Speed, Time};

// How long the equipment takes to call for the brake.
pub(crate) const SCMT_DELAY: Time = Time { ticks: 70_000_000 };

pub(crate) const ETCS_DELAY: Time = Time { ticks: 100_000_000 };

// What is counted of the pipe time: by scmt in general and near the target speed, and by etcs.
pub(crate) const FULL_SHARE: Share = Share { hundredths: 100 };

pub(crate) const PASSENGER_NEAR_SHARE: Share = Share { hundredths: 0 };

pub(crate) const GOODS_NEAR_SHARE: Share = Share { hundredths: 30 };

pub(crate) const ETCS_SHARE: Share = Share { hundredths: 130 };

// How far above the target speed scmt takes the train to be near it.
pub(crate) const PASSENGER_WIDTH: Speed = Speed { tenths: 300 };

pub(crate) const GOODS_TRAIN_WIDTH: Speed = Speed { tenths: 200 };

pub(crate) const GOODS_BRAKE_WIDTH: Speed = Speed { tenths: 150 };

// The length that the brake pipe is taken to have where the brake setting fixes it.
pub(crate) const PASSENGER_LENGTH: PipeLength = PipeLength { metres: 650 };

pub(crate) const GOODS_LENGTH: PipeLength = PipeLength { metres: 1_000 };

// Whether scmt counts the electro-pneumatic brake.
pub(crate) const SCMT_EP: bool = false;

// The pipe time with brake V, and the one that brake M has besides.
pub(crate) const PASSENGER_PIPE_TIME: PipeTimeRule = PipeTimeRule {
    fixed: PipeTime {
        microseconds: 3_500_000,
    },
    per_square_metre: PipeTime { microseconds: 15 },
};

pub(crate) const GOODS_PIPE_TIME: PipeTimeRule = PipeTimeRule {
    fixed: PipeTime {
        microseconds: 13_500_000,
    },
    per_square_metre: PipeTime { microseconds: 4 },
};

// The deceleration by lambda: so many hundreds of units for each percent, and so many more.
pub(crate) const HUNDREDS_PER_PERCENT: u64 = 685;

pub(crate) const HUNDREDS_AT_ZERO: u64 = 9_400;

// How a factor of scmt falls above VL, in hundred-thousandths for a tenth of km/h.
pub(crate) const FADING: u64 = 21;

// Above which speed the third and the fourth factor hold.
pub(crate) const HIGH_SPEED: Speed = Speed { tenths: 1_500 };

pub(crate) const VERY_HIGH_SPEED: Speed = Speed { tenths: 2_600 };

// The third factor at speed 0, in ten-thousandths; each tenth of km/h adds one more.
pub(crate) const HIGH_SPEED_BASE: u64 = 8_500;

// The fourth factor, in hundredths.
pub(crate) const VERY_HIGH_SPEED_SHARE: u64 = 80;

// What the target speed takes off, in hundredths of itself.
pub(crate) const TARGET_SHARE: u64 = 5;
