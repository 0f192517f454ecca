// A part of a text, with the byte of the text that it begins at, counted from 0.
#[derive(Clone, Copy, Debug, PartialEq, Eq)]
pub struct Span<'a> {
    pub bytes: &'a [u8],
    pub byte: usize,
}
