ghost use Rattle.std.specs.Prelude.{◌≡◌, true};
ghost use Rattle.sheet.specs.Limits.{Limits};
ghost use Rattle.sheet.specs.Ranges.{admissible};
ghost use Rattle.sheet.specs.Admitting.{AdmitAnswers};

use crate::admitted::Admitted;
use crate::draft::{Draft, Rejected};
use crate::refusal::Refusal;
use crate::values::Values;

impl Draft {
    // The draft as an admitted sheet, or the same draft back with the reason: the ranges are asked first, then whether the brake fits the train.
    pub fn admit(self) -> Result<Admitted, Rejected>
        ensures { AdmitAnswers self.values result }
    {
        let refusal = if !self.values.in_ranges() {
            Refusal::OutOfRange
        } else if !self.values.brake_allowed() {
            Refusal::GoodsBrake
        } else {
            let Draft { values } = self;
            return Ok(Admitted { values });
        };
        Err(Rejected {
            refusal,
            draft: self,
        })
    }
}

impl Admitted {
    // A copy of the sheet's values; they can be admitted again.
    pub fn values(&self) -> Values
        ensures same { result ≡ self.now.values }
        ensures valid { admissible result ≡ true }
        ensures limits { Limits result }
    {
        self.values
    }

    // The draft that was admitted. The admitted sheet is used up.
    pub fn into_draft(self) -> Draft
        ensures { result.values ≡ self.values }
    {
        let Admitted { values } = self;
        Draft { values }
    }
}
