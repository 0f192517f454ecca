use crate::layout::Layout;
use crate::row::Row;

// Some rows of a text in their order: what reading and writing them need to know of them.
#[derive(Clone, Copy, Debug, PartialEq, Eq)]
pub struct Description<'t> {
    pub rows: &'t [Row<'t>],
    pub layout: Layout,
    // the number that a value out of its range is refused with
    pub range_number: u8,
}
