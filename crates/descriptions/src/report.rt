ghost use Rattle.std.specs.Prelude.{Some};
ghost use Rattle.descriptions.specs.Faults.{report_text};

use crate::layer::Layer;
use std::fmt;

// What is printed of a fault, whatever was read.
#[derive(Clone, Copy, Debug, PartialEq, Eq)]
pub struct Report {
    pub number: u8,
    // counted from 0
    pub byte: usize,
    pub layer: Layer,
}

// A report prints as `answer=N byte=B layer=L`.
impl fmt::Display for Report {
    ghost output = { λ report. Some (report_text report) };

    fn fmt<W: fmt::Write>(&self, f: &mut fmt::Formatter<W>) -> fmt::Result {
        write!(
            f,
            "answer={} byte={} layer={}",
            self.number, self.byte, self.layer
        )
    }
}
