ghost use Rattle.std.specs.Prelude.{◌≡◌};
ghost use Rattle.descriptions.specs.Reading.{FieldFound, IsValueOf, byte_of};
ghost use Rattle.descriptions.specs.Rows.{plain_kind};

use crate::field::Field;
use crate::row::ValueKind;
use crate::span::Span;
use crate::value::Value;
use numerals::{Digits, SignedDigits};

impl ValueKind<'_> {
    // What stands behind a key as a field of this kind; `None` where it has not the kind's form.
    pub(crate) fn field<'a>(self, value: Span<'a>) -> Option<Field<'a>>
        ensures { FieldFound (plain_kind self.entry) value.entry.bytes.now value.entry.byte result }
    {
        let Span { bytes, byte } = value;
        match self {
            ValueKind::Word(words) => {
                let number = words.iter().position(|word| *word == bytes)?;
                Some(Field::Word {
                    number,
                    word: value,
                })
            }
            ValueKind::Number(range) => {
                let digits = Digits::take(bytes, range.max_digits)?;
                Some(Field::Number { digits, byte })
            }
            ValueKind::Signed(range) => {
                let digits = SignedDigits::take(bytes, range.max_digits)?;
                Some(Field::Signed { digits, byte })
            }
        }
    }
}

impl Field<'_> {
    // The value that the field writes. A number of at most ten digits loses nothing by the cast.
    pub(crate) fn value(self) -> Value
        ensures { IsValueOf self.entry result }
    {
        match self {
            Field::Word { number, .. } => Value::Word(number),
            Field::Number { digits, .. } => Value::Number(digits.value() as i64),
            Field::Signed { digits, .. } => Value::Number(digits.value()),
        }
    }

    // The byte of the text that the value begins at.
    pub(crate) fn byte(self) -> usize
        ensures { result ≡ byte_of self.entry }
    {
        match self {
            Field::Word { word, .. } => word.byte,
            Field::Number { byte, .. } | Field::Signed { byte, .. } => byte,
        }
    }
}
