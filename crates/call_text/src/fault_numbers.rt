ghost use Rattle.std.specs.Prelude.{◌≡◌, Some};
ghost use Rattle.descriptions.specs.Faults.{report_text};
ghost use Rattle.call_text.specs.Faults.{fault_byte, layer_of, number, report_of};

use crate::call_fault::CallFault;
use descriptions::{Layer, Report};
use std::error::Error;
use std::fmt;

impl CallFault {
    // The number by which the fault is reported.
    pub fn number(self) -> u8
        ensures { result ≡ number self }
    {
        match self {
            CallFault::Value(fault) => fault.number(),
            CallFault::LeftOver(_) => 5,
        }
    }

    // The byte of the line that the fault is at, counted from 0; the line's first where a key or the call is another.
    pub fn byte(self) -> usize
        ensures { result ≡ fault_byte self }
    {
        match self {
            CallFault::Value(fault) => fault.byte(),
            CallFault::LeftOver(byte) => byte,
        }
    }

    // What the fault is about.
    pub fn layer(self) -> Layer
        ensures { result ≡ layer_of self }
    {
        match self {
            CallFault::Value(fault) => fault.layer(),
            CallFault::LeftOver(_) => Layer::Sheet,
        }
    }
}

// A fault prints as its number, byte and layer.
impl fmt::Display for CallFault {
    ghost output = { λ fault. Some (report_text (report_of fault)) };

    fn fmt<W: fmt::Write>(&self, f: &mut fmt::Formatter<W>) -> fmt::Result {
        let report = Report {
            number: self.number(),
            byte: self.byte(),
            layer: self.layer(),
        };
        write!(f, "{report}")
    }
}

impl Error for CallFault {}
