use crate::span::Span;
use numerals::{Digits, SignedDigits};

// What stands behind a key, as what it was read: its bytes, with the byte of the text that they begin at.
#[derive(Clone, Copy, Debug, PartialEq, Eq)]
pub(crate) enum Field<'a> {
    // the word with this number among those of its row, counted from 0
    Word {
        number: usize,
        word: Span<'a>,
    },
    Number {
        digits: Digits<'a>,
        byte: usize,
    },
    Signed {
        digits: SignedDigits<'a>,
        byte: usize,
    },
}
