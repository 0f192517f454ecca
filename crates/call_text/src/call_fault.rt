ghost use Rattle.std.specs.Prelude.{◌≡◌};
ghost use Rattle.call_text.specs.declared.call_fault.CallFault.TheVariants.{Value as OfValue};

use descriptions::ValueFault;

// Why a line is no call: the fault of finding the line or one of its fields, kept whole, or one of the line as a whole. Bytes are counted from the line's first.
#[derive(Clone, Copy, Debug, PartialEq, Eq)]
pub enum CallFault {
    Value(ValueFault),
    // the line goes on from this byte behind its last field
    LeftOver(usize),
}

impl From<ValueFault> for CallFault {
    ghost from_gives = { λ e r. r ≡ OfValue e };

    fn from(e: ValueFault) -> CallFault {
        CallFault::Value(e)
    }
}
