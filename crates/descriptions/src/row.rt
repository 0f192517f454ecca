use crate::number_range::NumberRange;

// What the value of a row may be.
#[derive(Clone, Copy, Debug, PartialEq, Eq)]
pub enum ValueKind<'t> {
    // one of these words
    Word(&'t [&'t [u8]]),
    // a number in a range, from 0 on
    Number(NumberRange),
    // a number in a range, with a minus in front of one below 0
    Signed(NumberRange),
}

// A row of a description: a line of a text, or a field of a line.
#[derive(Clone, Copy, Debug, PartialEq, Eq)]
pub struct Row<'t> {
    // what stands in front of the equals sign
    pub key: &'t [u8],
    pub kind: ValueKind<'t>,
}
