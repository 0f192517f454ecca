ghost use Rattle.std.specs.Prelude.{◌≡◌};
ghost use Rattle.descriptions.specs.Faults.{byte_of_text, byte_of_value, layer_of_value, number_of_text, number_of_value};

use crate::faults::{TextFault, ValueFault};
use crate::layer::Layer;

impl TextFault {
    // The number by which the fault is reported.
    pub fn number(self) -> u8
        ensures { result ≡ number_of_text self }
    {
        match self {
            TextFault::NoLineFeed(_) => 1,
            TextFault::OtherKey(_) => 2,
            TextFault::BadForm(_) => 3,
        }
    }

    // The byte of the text that the fault is at, counted from 0.
    pub fn byte(self) -> usize
        ensures { result ≡ byte_of_text self }
    {
        match self {
            TextFault::NoLineFeed(byte) | TextFault::OtherKey(byte) | TextFault::BadForm(byte) => {
                byte
            }
        }
    }
}

impl ValueFault {
    // The number by which the fault is reported.
    pub fn number(self) -> u8
        ensures { result ≡ number_of_value self }
    {
        match self {
            ValueFault::Text(fault) => fault.number(),
            ValueFault::OutOfRange { number, .. } => number,
        }
    }

    // The byte of the text that the fault is at, counted from 0.
    pub fn byte(self) -> usize
        ensures { result ≡ byte_of_value self }
    {
        match self {
            ValueFault::Text(fault) => fault.byte(),
            ValueFault::OutOfRange { byte, .. } => byte,
        }
    }

    // What the fault is about.
    pub fn layer(self) -> Layer
        ensures { result ≡ layer_of_value self }
    {
        match self {
            ValueFault::Text(_) => Layer::Text,
            ValueFault::OutOfRange { .. } => Layer::Value,
        }
    }
}
