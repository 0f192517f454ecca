ghost use Rattle.std.specs.Prelude.{◌≡◌, Some};
ghost use Rattle.descriptions.specs.Faults.{report_text};
ghost use Rattle.sheet_text.specs.Faults.{fault_byte, layer_of, number, report_of};

use crate::faults::SheetFault;
use descriptions::{Layer, Report};
use std::error::Error;
use std::fmt;

impl SheetFault {
    // The number by which the fault is reported.
    pub fn number(self) -> u8
        ensures { result ≡ number self }
    {
        match self {
            SheetFault::Value(fault) => fault.number(),
            SheetFault::LeftOver(_) => 5,
            SheetFault::GoodsBrake => 6,
        }
    }

    // The byte of the text that the fault is at, counted from 0; 0 for a brake that does not fit the train, which is no fault of one byte.
    pub fn byte(self) -> usize
        ensures { result ≡ fault_byte self }
    {
        match self {
            SheetFault::Value(fault) => fault.byte(),
            SheetFault::LeftOver(byte) => byte,
            SheetFault::GoodsBrake => 0,
        }
    }

    // What the fault is about.
    pub fn layer(self) -> Layer
        ensures { result ≡ layer_of self }
    {
        match self {
            SheetFault::Value(fault) => fault.layer(),
            SheetFault::LeftOver(_) | SheetFault::GoodsBrake => Layer::Sheet,
        }
    }
}

// A fault prints as its number, byte and layer.
impl fmt::Display for SheetFault {
    ghost output = { λ fault. Some (report_text (report_of fault)) };

    fn fmt<W: fmt::Write>(&self, f: &mut fmt::Formatter<W>) -> fmt::Result {
        let report = Report {
            number: self.number(),
            byte: self.byte(),
            layer: self.layer(),
        };
        write!(f, "{report}")
    }
}

impl Error for SheetFault {}
