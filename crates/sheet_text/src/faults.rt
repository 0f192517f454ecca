ghost use Rattle.std.specs.Prelude.{◌≡◌};
ghost use Rattle.sheet_text.specs.declared.faults.SheetFault.TheVariants.{Value as OfValue};

use descriptions::ValueFault;

// Why a train sheet could not be read: the fault of one of its lines, kept whole, or one of the sheet as a whole. Bytes are counted from the text's first.
#[derive(Clone, Copy, Debug, PartialEq, Eq)]
pub enum SheetFault {
    Value(ValueFault),
    // the text goes on from this byte behind its twelve lines
    LeftOver(usize),
    // a goods brake stands with a train that is not a goods train
    GoodsBrake,
}

impl From<ValueFault> for SheetFault {
    ghost from_gives = { λ e r. r ≡ OfValue e };

    fn from(e: ValueFault) -> SheetFault {
        SheetFault::Value(e)
    }
}
