use crate::call_fault::CallFault;
use descriptions::Value;

// The number of a kind in its table, counted from 0, and the values of its fields; memory for more fields than it has is blank.
#[derive(Clone, Copy, Debug, PartialEq, Eq)]
pub struct Found<const N: usize> {
    pub kind: usize,
    pub values: [Value; N],
}

// The first line of a text as one of a table's kinds, or its first fault.
#[derive(Clone, Copy, Debug, PartialEq, Eq)]
pub struct KindLine<const N: usize> {
    pub found: Result<Found<N>, CallFault>,
    // the byte behind its line feed, or the text's end where there is no line feed in reach
    pub next: usize,
}
