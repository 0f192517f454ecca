ghost use Rattle.std.specs.Prelude.{◌+◌, ◌^◌, ◌<◌, length};
ghost use Rattle.descriptions.specs.Reading.{PartAnswers};
ghost use Rattle.descriptions.specs.Rows.{plain_row};

use crate::faults::{TextFault, ValueFault};
use crate::keys::value_behind;
use crate::row::Row;
use crate::span::Span;
use crate::value::Value;

impl Row<'_> {
    // The value of this row in a part of a text, whose line begins at the byte `line`; or the first question with a no.
    pub(crate) fn read(
        &self,
        part: Span<'_>,
        line: usize,
        range_number: u8,
    ) -> Result<Value, ValueFault>
        requires { part.byte + length part.bytes.now < 2 ^ 64 }
        ensures { PartAnswers (plain_row self.now) range_number part.entry.bytes.now line part.entry.byte result }
    {
        let bytes = value_behind(part.bytes, self.key).ok_or(TextFault::OtherKey(line))?;
        let byte = part.byte + self.key.len() + 1;
        let field = self
            .kind
            .field(Span { bytes, byte })
            .ok_or(TextFault::BadForm(byte))?;
        let value = field.value();
        if self.kind.is_in_range(value) {
            Ok(value)
        } else {
            Err(ValueFault::OutOfRange {
                number: range_number,
                byte: field.byte(),
            })
        }
    }
}
