ghost use Rattle.std.specs.Prelude.{◌≡◌};
ghost use Rattle.sheet.specs.Ranges.{in_ranges, brake_allowed};

use crate::sheet_lines::lines;
use crate::values::Values;
use crate::words::Service;
use descriptions::all_fit;

impl Values {
    // Whether each value is one that its line allows.
    pub fn in_ranges(&self) -> bool
        ensures { result ≡ in_ranges self.now }
    {
        all_fit(lines(), &self.list())
    }

    // Whether the brake fits the train: only a goods train may have its brake set for goods.
    pub fn brake_allowed(&self) -> bool
        ensures { result ≡ brake_allowed self.now.train self.now.brake }
    {
        self.train == Service::Goods || self.brake == Service::Passenger
    }
}
