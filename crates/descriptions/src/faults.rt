ghost use Rattle.std.specs.Prelude.{◌≡◌};
ghost use Rattle.descriptions.specs.declared.faults.ValueFault.TheVariants.{Text as OfText};

// Why bytes are no row of a text. Bytes are counted from the text's first.
#[derive(Clone, Copy, Debug, PartialEq, Eq)]
pub enum TextFault {
    // no line feed in the window from this byte on
    NoLineFeed(usize),
    // the line that begins at this byte has another key where the due one should be
    OtherKey(usize),
    // the value that begins at this byte has not the key's form
    BadForm(usize),
}

// Why a value could not be read: the fault of its text, kept whole, or one of the value itself.
#[derive(Clone, Copy, Debug, PartialEq, Eq)]
pub enum ValueFault {
    Text(TextFault),
    // the value that begins at this byte is out of its range, which its description refuses with this number
    OutOfRange { number: u8, byte: usize },
}

impl From<TextFault> for ValueFault {
    ghost from_gives = { λ e r. r ≡ OfText e };

    fn from(e: TextFault) -> ValueFault {
        ValueFault::Text(e)
    }
}
