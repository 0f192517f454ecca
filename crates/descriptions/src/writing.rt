ghost use Rattle.std.specs.Prelude.{◌≡◌, ◌+◌, ◌-◌, ◌^◌, length, min};
ghost use Rattle.descriptions.specs.Laws.{WrittenIsRead};
ghost use Rattle.descriptions.specs.Rows.{plain_kind, value_text};
ghost use Rattle.descriptions.specs.Writing.{Written, text_of};

use crate::description::Description;
use crate::fitting::all_fit;
use crate::row::ValueKind;
use crate::value::Value;
use crate::writer::Writer;
use numerals::digit_count;

impl ValueKind<'_> {
    // How many bytes the text of a value has.
    fn text_length(self, value: Value) -> usize
        ensures { result ≡ length (value_text (plain_kind self.entry) value) }
    {
        match (self, value) {
            (ValueKind::Word(words), Value::Word(number)) => {
                words.get(number).map_or(0, |word| word.len())
            }
            (ValueKind::Number(_) | ValueKind::Signed(_), Value::Number(number)) => {
                digit_count(number.unsigned_abs()) + usize::from(number < 0)
            }
            _ => 0,
        }
    }
}

impl Description<'_> {
    // Where the text of the values ends if it begins at `at`. A sum that is too great stops at the greatest number there is, which no memory reaches.
    fn end_of(&self, values: &[Value], at: usize) -> usize
        ensures { result ≡ min (at + length (text_of self.now values.now)) (2 ^ 64 - 1) }
    {
        let mut end = at;
        for (row, value) in self.rows.iter().zip(values) {
            // besides key and value there are the equals sign and the line feed or the space
            end = end
                .saturating_add(row.key.len())
                .saturating_add(row.kind.text_length(*value))
                .saturating_add(2);
        }
        end
    }

    fn write_rows(&self, values: &[Value], out: &mut [u8], at: usize) -> Option<usize>
        ensures { Written self.now values.now out.old at out.new result }
    {
        if !all_fit(self.rows, values) || self.end_of(values, at) > out.len() {
            return None;
        }
        let mut writer = Writer { out, at };
        writer.rows(self.layout, self.rows, values);
        Some(writer.at)
    }

    // Writes the text of the values from the byte `at` on and answers where it ends; the bytes before and behind it stay.
    // Where the values do not fit the rows, or there is no room, it answers `None` and alters nothing.
    // `write_rows` writes and promises `written` alone; that what was written is read back follows from that, for rows that can be told apart (`is_described`), and fields with nothing or a space behind them.
    pub fn write(&self, values: &[Value], out: &mut [u8], at: usize) -> Option<usize>
        ensures written { Written self.now values.now out.old at out.new result }
        ensures read_back { WrittenIsRead self.now }
    {
        self.write_rows(values, out, at)
    }
}
