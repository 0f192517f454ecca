ghost use Rattle.std.specs.Prelude.{◌≡◌, ◌<◌, slice_index};
ghost use Rattle.sheet.specs.declared.words.Model.TheVariants.{Scmt as ScmtName};
ghost use Rattle.models.specs.Vl.{Greatest, entries, vl};

use crate::admissible_values::AdmissibleValues;
use crate::deceleration::{
    base_deceleration, fading_factor, high_speed_factor, kr_factor, target_factor,
    very_high_speed_factor,
};
use crate::near_target::scmt_share;
use crate::numbers;
use crate::rules::Rules;
use crate::rules_model::RulesModel;
use crate::share::Share;
use braking::{Approach, TopSpeed};
use sheet::Regime;
use stopping::BrakeDeceleration;
use units::{Speed, Time};

// The rules of the Italian SCMT.
#[derive(Clone, Copy, Debug, PartialEq, Eq)]
pub struct ScmtRules;

// The Italian SCMT model, with the values of an admitted sheet.
pub type Scmt = RulesModel<ScmtRules>;

// VL in tenths of km/h, at lambda 45, 50 and so on up to 160.
const FADING_SPEEDS: [u16; 24] = [
    873, 914, 954, 991, 1027, 1061, 1094, 1126, 1157, 1186, 1215, 1243, 1270, 1297, 1323, 1348,
    1372, 1396, 1420, 1443, 1466, 1488, 1510, 1531,
];

// VL at an index of the table.
fn fading_speed_at(index: u16) -> Speed
    requires { index < 24 }
    ensures { result.tenths ≡ slice_index entries index }
{
    Speed {
        tenths: u64::from(FADING_SPEEDS[usize::from(index)]),
    }
}

impl AdmissibleValues {
    // VL by lambda.
    fn fading_speed(&self) -> Speed
        ensures value { result.tenths ≡ vl self.now.values.lambda }
        ensures rule { Greatest self.now.values.lambda result.tenths }
    {
        fading_speed_at((self.values.lambda - 45) / 5)
    }
}

impl RulesModel<ScmtRules> {
    // VL, the speed above which the brake fades: 161.7 times lambda to the 0.443, in tenths of km/h and rounded down.
    pub fn fading_speed(&self) -> Speed
        ensures value { result.tenths ≡ vl self.now.sheet.values.lambda }
        ensures rule { Greatest self.now.sheet.values.lambda result.tenths }
    {
        self.sheet.fading_speed()
    }
}

impl Rules for ScmtRules {
    ghost name = { ScmtName };

    fn top_speed(regime: Regime) -> TopSpeed {
        let tenths = match regime {
            Regime::Operation => 2_600,
            Regime::Trial => 3_100,
        };
        TopSpeed {
            speed: Speed { tenths },
        }
    }

    // Never, whatever the sheet has.
    fn counts_ep(_sheet: &AdmissibleValues) -> bool {
        numbers::SCMT_EP
    }

    fn pipe_share(sheet: &AdmissibleValues, approach: Approach) -> Share {
        scmt_share(sheet.values.train, sheet.values.brake, approach)
    }

    fn delay() -> Time {
        numbers::SCMT_DELAY
    }

    fn brake_deceleration(sheet: &AdmissibleValues, approach: Approach) -> BrakeDeceleration {
        let base = base_deceleration(sheet);
        let by_fading = fading_factor(sheet.fading_speed(), approach).scale(base);
        let by_kr = kr_factor(sheet).scale(by_fading);
        let by_high_speed = high_speed_factor(approach).scale(by_kr);
        let by_very_high_speed = very_high_speed_factor(approach).scale(by_high_speed);
        target_factor(approach).scale(by_very_high_speed)
    }
}
