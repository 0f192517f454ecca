// Which whole numbers a value may be, and how they are written.
#[derive(Clone, Copy, Debug, PartialEq, Eq)]
pub struct NumberRange {
    // how many digits a number is read in at most, never more than 10
    pub max_digits: usize,
    pub least: i64,
    pub greatest: i64,
    // only multiples of this are in the range: all numbers with 1, and 0 alone with 0
    pub step: u64,
}
