ghost use Rattle.std.specs.Prelude.{◌≡◌, true, if◌then◌else◌};
ghost use Rattle.sheet.specs.Limits.{Limits};
ghost use Rattle.sheet.specs.Ranges.{admissible};

use sheet::Values;
use stopping::{LeadTime, LeadTimes};

// The values of an admitted sheet, copied, since the sheet itself is moved on into a mission: the type holds that they are in range and the brake fits the train.
#[derive(Clone, Copy, Debug, PartialEq, Eq)]
pub struct AdmissibleValues {
    pub(crate) values: Values,
    ghost valid: { admissible values ≡ true },
    ghost limits: { Limits values },
}

impl AdmissibleValues {
    // The warning and the hysteresis time.
    pub(crate) fn lead_times(&self) -> LeadTimes
        ensures warning { result.warning.tenths ≡ self.now.values.tw }
        ensures hysteresis { result.hysteresis.tenths ≡ self.now.values.ti }
    {
        LeadTimes {
            warning: LeadTime {
                tenths: self.values.tw,
            },
            hysteresis: LeadTime {
                tenths: self.values.ti,
            },
        }
    }

    // Whether the electro-pneumatic brake works.
    pub(crate) fn has_ep(&self) -> bool
        ensures { self.now.values.ep ≡ if result then 1 else 0 }
    {
        self.values.ep == 1
    }
}
