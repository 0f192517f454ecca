ghost use Rattle.sheet.specs.declared.words.Model.TheVariants.{Etcs as EtcsName};

use crate::admissible_values::AdmissibleValues;
use crate::deceleration::{base_deceleration, kr_factor, target_factor};
use crate::numbers;
use crate::rules::Rules;
use crate::rules_model::RulesModel;
use crate::share::Share;
use braking::{Approach, TopSpeed};
use sheet::Regime;
use stopping::BrakeDeceleration;
use units::{Speed, Time};

// The rules of ETCS baseline 2.
#[derive(Clone, Copy, Debug, PartialEq, Eq)]
pub struct EtcsRules;

// The ETCS baseline 2 model, with the values of an admitted sheet.
pub type Etcs = RulesModel<EtcsRules>;

impl Rules for EtcsRules {
    ghost name = { EtcsName };

    fn top_speed(regime: Regime) -> TopSpeed {
        let tenths = match regime {
            Regime::Operation => 3_300,
            Regime::Trial => 4_000,
        };
        TopSpeed {
            speed: Speed { tenths },
        }
    }

    // As the sheet has it.
    fn counts_ep(sheet: &AdmissibleValues) -> bool {
        sheet.has_ep()
    }

    fn pipe_share(_sheet: &AdmissibleValues, _approach: Approach) -> Share {
        numbers::ETCS_SHARE
    }

    fn delay() -> Time {
        numbers::ETCS_DELAY
    }

    // Of the five factors only two are not 1.
    fn brake_deceleration(sheet: &AdmissibleValues, approach: Approach) -> BrakeDeceleration {
        let base = base_deceleration(sheet);
        let by_kr = kr_factor(sheet).scale(base);
        target_factor(approach).scale(by_kr)
    }
}
