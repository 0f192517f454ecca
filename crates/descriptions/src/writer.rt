ghost use Rattle.std.specs.Prelude.{◌≡◌, ◌+◌, ◌≤◌, length, true};
ghost use Rattle.descriptions.specs.Fitting.{all_fit, fits};
ghost use Rattle.descriptions.specs.Layouts.{laid, rows_text};
ghost use Rattle.descriptions.specs.Rows.{plain_kind, plain_row, plain_rows, row_text, value_text};
ghost use Rattle.descriptions.specs.Writing.{Put};
ghost use Rattle.std.specs.Fmt.{signed_decimal};

use crate::layout::Layout;
use crate::row::{Row, ValueKind};
use crate::value::Value;
use numerals::write_number;

// Memory that is written, and the byte that is written next.
#[derive(Drop)]
pub(crate) struct Writer<'a> {
    pub(crate) out: &'a mut [u8],
    pub(crate) at: usize,
}

// The clause `same` of each function: the memory stays the one that was lent.
impl<'a> Writer<'a> {
    fn bytes(&mut self, bytes: &[u8])
        requires { self.old.at + length bytes.now ≤ length self.old.out.now }
        ensures written { Put self.old.out.now self.old.at bytes.now self.new.out.now self.new.at }
        ensures same { self.new.out.ghost_name ≡ self.old.out.ghost_name }
    {
        let end = self.at + bytes.len();
        self.out[self.at..end].copy_from_slice(bytes);
        self.at = end;
    }

    // The digits of a number, behind a minus where it is below 0.
    fn number(&mut self, number: i64)
        requires { self.old.at + length (signed_decimal number) ≤ length self.old.out.now }
        ensures written { Put self.old.out.now self.old.at (signed_decimal number) self.new.out.now self.new.at }
        ensures same { self.new.out.ghost_name ≡ self.old.out.ghost_name }
    {
        if number < 0 {
            self.bytes(b"-");
        }
        self.at = write_number(self.out, self.at, number.unsigned_abs()).unwrap();
    }

    fn value(&mut self, kind: ValueKind<'_>, value: Value)
        requires fits { fits (plain_kind kind) value ≡ true }
        requires room { self.old.at + length (value_text (plain_kind kind) value) ≤ length self.old.out.now }
        ensures written { Put self.old.out.now self.old.at (value_text (plain_kind kind.entry) value) self.new.out.now self.new.at }
        ensures same { self.new.out.ghost_name ≡ self.old.out.ghost_name }
    {
        match value {
            Value::Word(number) => {
                if let ValueKind::Word(words) = kind {
                    self.bytes(words[number]);
                }
            }
            Value::Number(number) => self.number(number),
        }
    }

    // Writes key, equals sign and value.
    fn keyed_value(&mut self, row: &Row<'_>, value: Value)
        requires fits { fits (plain_kind row.now.kind) value ≡ true }
        requires room { self.old.at + length (row_text (plain_row row.now) value) ≤ length self.old.out.now }
        ensures written { Put self.old.out.now self.old.at (row_text (plain_row row.now) value) self.new.out.now self.new.at }
        ensures same { self.new.out.ghost_name ≡ self.old.out.ghost_name }
    {
        self.bytes(row.key);
        self.bytes(b"=");
        self.value(row.kind, value);
    }

    // Writes a row with what the layout puts around it.
    fn row(&mut self, layout: Layout, row: &Row<'_>, value: Value)
        requires fits { fits (plain_kind row.now.kind) value ≡ true }
        requires room { self.old.at + length (laid layout (row_text (plain_row row.now) value)) ≤ length self.old.out.now }
        ensures written { Put self.old.out.now self.old.at (laid layout (row_text (plain_row row.now) value)) self.new.out.now self.new.at }
        ensures same { self.new.out.ghost_name ≡ self.old.out.ghost_name }
    {
        match layout {
            Layout::Lines { .. } => {
                self.keyed_value(row, value);
                self.bytes(b"\n");
            }
            Layout::Fields => {
                self.bytes(b" ");
                self.keyed_value(row, value);
            }
        }
    }

    // Writes the rows with their values, one behind the other.
    pub(crate) fn rows(&mut self, layout: Layout, rows: &[Row<'_>], values: &[Value])
        requires fits { all_fit (plain_rows rows.now) values.now ≡ true }
        requires room { self.old.at + length (rows_text layout (plain_rows rows.now) values.now) ≤ length self.old.out.now }
        ensures written { Put self.old.out.now self.old.at (rows_text layout (plain_rows rows.now) values.now) self.new.out.now self.new.at }
        ensures same { self.new.out.ghost_name ≡ self.old.out.ghost_name }
    {
        for (row, value) in rows.iter().zip(values) {
            self.row(layout, row, *value);
        }
    }
}
