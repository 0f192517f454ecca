use descriptions::Row;

// A kind of call: the word that names it, the fields that are due behind it, and the number that a value out of its range is refused with.
#[derive(Clone, Copy, Debug, PartialEq, Eq)]
pub struct CallKind<'t> {
    pub word: &'t [u8],
    pub fields: &'t [Row<'t>],
    pub range_number: u8,
}
