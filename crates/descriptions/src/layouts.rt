ghost use Rattle.std.specs.Prelude.{◌≡◌, ◌+◌, ◌^◌, ◌<◌, length};
ghost use Rattle.descriptions.specs.Layouts.{PartFound, behind_row, line_byte};

use crate::cursor::Cursor;
use crate::faults::TextFault;
use crate::layout::Layout;
use crate::span::Span;

impl Layout {
    // The part of a text that stands where a row is due, without what the layout puts around it.
    pub(crate) fn part<'a>(self, rest: Cursor<'a>) -> Result<Span<'a>, TextFault>
        ensures { PartFound self rest.entry.text.now rest.entry.at result }
    {
        match self {
            Layout::Lines { window } => rest.cut(window),
            Layout::Fields => match rest.text.get(rest.at) {
                Some(b' ') => Ok(Cursor {
                    text: rest.text,
                    at: rest.at + 1,
                }
                .word()),
                _ => Err(TextFault::OtherKey(0)),
            },
        }
    }

    // The first byte of the line that a row is due in. A text of fields is one line.
    pub(crate) fn line(self, at: usize) -> usize
        ensures { result ≡ line_byte self at }
    {
        match self {
            Layout::Lines { .. } => at,
            Layout::Fields => 0,
        }
    }

    // Where the next row begins behind a part.
    pub(crate) fn behind(self, part: Span) -> usize
        requires { part.byte + length part.bytes.now + 1 < 2 ^ 64 }
        ensures { result ≡ behind_row self part.entry.byte (length part.entry.bytes.now) }
    {
        let end = part.byte + part.bytes.len();
        match self {
            Layout::Lines { .. } => end + 1,
            Layout::Fields => end,
        }
    }
}
