// The colour of a lamp, with its number.
#[derive(Clone, Copy, Debug, PartialEq, Eq)]
pub enum Lamp {
    Red = 1,
    Amber = 2,
    Green = 3,
}
