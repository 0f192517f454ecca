ghost use Rattle.std.specs.Prelude.{◌≡◌};
ghost use Rattle.descriptions.specs.Laws.{OneAnswer, ReadIsText, TakenExactly};
ghost use Rattle.descriptions.specs.Reading.{ReadAnswers, RowAnswers, rows_read};
ghost use Rattle.descriptions.specs.Rows.{plain_row};

use crate::cursor::Cursor;
use crate::description::Description;
use crate::faults::ValueFault;
use crate::row::Row;
use crate::value::Value;

impl Description<'_> {
    // The value of a row that is due at the cursor, and where the next row begins; or the first question with a no.
    fn read_row(&self, row: &Row<'_>, rest: Cursor<'_>) -> Result<(Value, usize), ValueFault>
        ensures { RowAnswers self.now.layout self.now.range_number (plain_row row.now) rest.entry.text.now rest.entry.at result }
    {
        let part = self.layout.part(rest)?;
        let value = row.read(part, self.layout.line(rest.at), self.range_number)?;
        Ok((value, self.layout.behind(part)))
    }

    fn read_rows<const N: usize>(&self, rest: &mut Cursor<'_>) -> Result<[Value; N], ValueFault>
        ensures answers { ReadAnswers self.now N rest.old.text.now rest.old.at rest.new.at result }
        ensures same { rest.new.text ≡ rest.old.text }
    {
        let mut values = [Value::BLANK; N];
        let mut here = *rest;
        for (index, row) in self.rows.iter().take(N).enumerate() {
            let (value, next) = self.read_row(row, here)?;
            values[index] = value;
            here.at = next;
        }
        *rest = here;
        Ok(values)
    }

    // The values of the rows that stand from the cursor on, of `N` rows at most; or the first question with a no. The cursor then stands behind the last row that was read; on a fault it has not moved.
    // Of rows that can be told apart (`is_described`) the text of values that fit is read as them; of fields where nothing or a space stands behind it.
    // `read_rows` reads and promises the first two clauses alone; the others are laws of any answer like that.
    pub fn read<const N: usize>(&self, rest: &mut Cursor<'_>) -> Result<[Value; N], ValueFault>
        ensures answers { ReadAnswers self.now N rest.old.text.now rest.old.at rest.new.at result }
        ensures same { rest.new.text ≡ rest.old.text }
        ensures text { ReadIsText self.now.layout (rows_read self.now N) rest.old.text.now rest.old.at }
        ensures exactly { TakenExactly self.now.layout self.now.range_number (rows_read self.now N) rest.old.text.now rest.old.at }
        ensures once { OneAnswer self.now.layout self.now.range_number (rows_read self.now N) rest.old.text.now rest.old.at }
    {
        self.read_rows(rest)
    }
}
