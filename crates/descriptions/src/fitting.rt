ghost use Rattle.std.specs.Prelude.{◌≡◌};
ghost use Rattle.descriptions.specs.Fitting.{all_fit, fits, has_form, in_range, is_in_range, is_short};
ghost use Rattle.descriptions.specs.Rows.{plain_kind, plain_rows};

use crate::number_range::NumberRange;
use crate::row::{Row, ValueKind};
use crate::value::Value;
use numerals::{MAX_DIGITS, digit_count};

impl NumberRange {
    // Whether a number is in the range.
    fn contains(self, number: i64) -> bool
        ensures { result ≡ in_range self number }
    {
        (self.least..=self.greatest).contains(&number)
            && number.unsigned_abs().is_multiple_of(self.step)
    }

    // Whether a number has few enough digits.
    fn is_short(self, number: u64) -> bool
        ensures { result ≡ is_short self.max_digits number }
    {
        digit_count(number) <= self.max_digits.min(MAX_DIGITS)
    }
}

impl ValueKind<'_> {
    // Whether a value has the kind's form: is one of its words, or a number with few enough digits, and below 0 only where a minus may stand.
    fn has_form(self, value: Value) -> bool
        ensures { result ≡ has_form (plain_kind self.entry) value }
    {
        match (self, value) {
            (ValueKind::Word(words), Value::Word(number)) => number < words.len(),
            (ValueKind::Number(range), Value::Number(number)) => {
                number >= 0 && range.is_short(number.unsigned_abs())
            }
            (ValueKind::Signed(range), Value::Number(number)) => {
                range.is_short(number.unsigned_abs())
            }
            _ => false,
        }
    }

    // Whether a value is in the kind's range, which is asked of a number alone.
    pub(crate) fn is_in_range(self, value: Value) -> bool
        ensures { result ≡ is_in_range (plain_kind self.entry) value }
    {
        match (self, value) {
            (ValueKind::Number(range), Value::Number(number)) => range.contains(number),
            (ValueKind::Signed(range), Value::Number(number)) => range.contains(number),
            _ => true,
        }
    }

    // Whether a value is one that the kind allows.
    fn admits(self, value: Value) -> bool
        ensures { result ≡ fits (plain_kind self.entry) value }
    {
        self.has_form(value) && self.is_in_range(value)
    }
}

// Whether the values are those of the rows, one for one, and each one that its row allows.
pub fn all_fit(rows: &[Row<'_>], values: &[Value]) -> bool
    ensures { result ≡ all_fit (plain_rows rows.now) values.now }
{
    rows.len() == values.len()
        && rows
            .iter()
            .zip(values)
            .all(|(row, value)| row.kind.admits(*value))
}
