use crate::etcs::Etcs;
use crate::scmt::Scmt;

// The model that a sheet names.
#[derive(Clone, Copy, Debug, PartialEq, Eq)]
pub enum SheetModel {
    Scmt(Scmt),
    Etcs(Etcs),
}
