// How much of a text was answered.
#[derive(Clone, Copy, Debug, PartialEq, Eq)]
pub struct Answered {
    // how many of its call lines, each of which is shown
    pub lines: usize,
    // how many of these are calls, each of which left a record
    pub calls: usize,
    // whether the run ended with the text, and not where no room was left; a line with no line feed in reach takes in all that is left
    pub ended: bool,
}
