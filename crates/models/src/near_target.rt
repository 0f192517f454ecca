ghost use Rattle.std.specs.Prelude.{◌≡◌, ◌≤◌};
ghost use Rattle.models.specs.Formulas.{near_share, near_width, scmt_share};

use crate::numbers;
use crate::share::Share;
use braking::Approach;
use sheet::Service;
use units::Speed;

const STANDSTILL: Speed = Speed { tenths: 0 };

// What scmt counts of the pipe time near the target speed, and how far above the target speed that reaches.
#[derive(Clone, Copy, Debug, PartialEq, Eq)]
struct NearTarget {
    share: Share,
    width: Speed,
    ghost narrow: { width.tenths ≤ 300 },
}

// By the train and its brake setting.
fn near_target(train: Service, brake: Service) -> NearTarget
    ensures share { result.share.hundredths ≡ near_share train brake }
    ensures width { result.width.tenths ≡ near_width train brake }
{
    match (train, brake) {
        (Service::Passenger, _) => NearTarget {
            share: numbers::PASSENGER_NEAR_SHARE,
            width: numbers::PASSENGER_WIDTH,
        },
        (Service::Goods, Service::Passenger) => NearTarget {
            share: numbers::GOODS_NEAR_SHARE,
            width: numbers::GOODS_TRAIN_WIDTH,
        },
        (Service::Goods, Service::Goods) => NearTarget {
            share: numbers::GOODS_NEAR_SHARE,
            width: numbers::GOODS_BRAKE_WIDTH,
        },
    }
}

// The share of the pipe time that scmt counts: all of it, or less near a target speed above 0.
pub(crate) fn scmt_share(train: Service, brake: Service, approach: Approach) -> Share
    ensures { result.hundredths ≡ scmt_share train brake approach.speed approach.target_speed }
{
    let near = near_target(train, brake);
    let target = approach.target_speed();
    if target > STANDSTILL && approach.speed() < target + near.width {
        near.share
    } else {
        numbers::FULL_SHARE
    }
}
