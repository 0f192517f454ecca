ghost use Rattle.std.specs.Prelude.{◌≤◌, Some};

use std::fmt;
use units::Distance;

// The three braking distances, in order by their type: a train runs on as far as `control` once the brake is called for; `warning` leads that by the warning time, and `nominal` leads `warning` by the hysteresis time.
#[derive(Clone, Copy, Debug, PartialEq, Eq)]
pub struct Distances {
    pub control: Distance,
    pub warning: Distance,
    pub nominal: Distance,
    ghost control_first: { control.millimetres ≤ warning.millimetres },
    ghost nominal_last: { warning.millimetres ≤ nominal.millimetres },
}

// The three distances print by their names, each as its number of mm.
impl fmt::Display for Distances {
    ghost use Rattle.braking.specs.Printed.{distances_text};

    ghost output = { λ d. Some (distances_text d) };

    fn fmt<W: fmt::Write>(&self, f: &mut fmt::Formatter<W>) -> fmt::Result {
        write!(
            f,
            "control={} warning={} nominal={}",
            self.control.millimetres, self.warning.millimetres, self.nominal.millimetres
        )
    }
}
