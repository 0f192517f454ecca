// How the rows of a description stand in a text.
#[derive(Clone, Copy, Debug, PartialEq, Eq)]
pub enum Layout {
    // each row is a line, ended by a line feed, and has at most so many bytes with it
    Lines { window: usize },
    // the text is one line without its line feed, and each row is a field behind one space
    Fields,
}
