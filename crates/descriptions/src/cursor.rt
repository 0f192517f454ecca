ghost use Rattle.std.specs.Prelude.{◌≡◌, ◌+◌, ◌^◌, ◌<◌, length, drop};
ghost use Rattle.std.specs.List.{between};
ghost use Rattle.descriptions.specs.Layouts.{WordAt};
ghost use Rattle.descriptions.specs.Lines.{LineCut, EndAsked};

use crate::faults::TextFault;
use crate::first_byte::first_of;
use crate::span::Span;

// A text with the byte from which on it is read, counted from 0.
#[derive(Clone, Copy, Debug, PartialEq, Eq)]
pub struct Cursor<'a> {
    pub text: &'a [u8],
    pub at: usize,
}

impl<'a> Cursor<'a> {
    // The bytes from here up to, and without, the byte `end`, or up to the text's end.
    fn upto(self, end: usize) -> Span<'a>
        ensures bytes { result.bytes.now ≡ between self.entry.at end self.entry.text.now }
        ensures byte { result.byte ≡ self.entry.at }
        ensures counted { result.byte + length result.bytes.now < 2 ^ 64 }
    {
        let end = end.min(self.text.len());
        Span {
            bytes: self.text.get(self.at..end).unwrap_or(&[]),
            byte: self.at,
        }
    }

    // What is left of the text from here on.
    fn rest(self) -> &'a [u8]
        ensures { result.now ≡ drop self.entry.at self.entry.text.now }
    {
        self.text.get(self.at..).unwrap_or(&[])
    }

    // The line from here on, without its line feed, which must be among the next `window` bytes.
    pub fn cut(self, window: usize) -> Result<Span<'a>, TextFault>
        ensures { LineCut self.entry.text.now self.entry.at window result }
    {
        let rest = self.rest();
        let window = &rest[..window.min(rest.len())];
        let feed = first_of(window, b'\n').ok_or(TextFault::NoLineFeed(self.at))?;
        Ok(self.upto(self.at + feed))
    }

    // The bytes from here on up to the next space or the text's end.
    pub fn word(self) -> Span<'a>
        ensures word { WordAt self.entry.text.now self.entry.at result.bytes.now (result.byte + length result.bytes.now) }
        ensures byte { result.byte ≡ self.entry.at }
        ensures counted { result.byte + length result.bytes.now < 2 ^ 64 }
    {
        let rest = self.rest();
        let count = first_of(rest, b' ').unwrap_or(rest.len());
        self.upto(self.at + count)
    }

    // Whether the text ends here; if not, the byte that the cursor stands at, from which on it is left over.
    pub fn ends(self) -> Result<(), usize>
        ensures { EndAsked self.entry.text.now self.entry.at result }
    {
        if self.at == self.text.len() {
            Ok(())
        } else {
            Err(self.at)
        }
    }
}
