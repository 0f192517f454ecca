ghost use Rattle.std.specs.Prelude.{◌≡◌, true};
ghost use Rattle.sheet.specs.Ranges.{admissible};

use crate::values::Values;

// A train sheet that was admitted: its type holds that every value is in range and the brake fits the train.
// It can be neither copied nor dropped: it is given up by `into_draft`, or with the mission that is opened with it.
pub struct Admitted {
    pub(crate) values: Values,
    ghost valid: { admissible values ≡ true },
}
