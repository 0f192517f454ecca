ghost use Rattle.std.specs.Prelude.{◌≡◌, ℕ};
ghost use Rattle.call_text.specs.KindLines.{GoesForward, HasOneAnswer, HasOneLine, TakenExactly};
ghost use Rattle.call_text.specs.Kinds.{plain_kinds};
ghost use Rattle.call_text.specs.Reading.{KindAnswers, LineFound, TextFound};

use crate::call_fault::CallFault;
use crate::call_kind::CallKind;
use crate::kind_line::{Found, KindLine};
use descriptions::{Cursor, Description, Layout, TextFault, ValueFault, value_behind};

// How many bytes a line may have with its line feed.
const LINE_WINDOW: usize = 96;

// The number in the table of the kind that the first field of a line names. The cursor, which stands at the line's first byte, then stands behind that field.
fn read_kind(kinds: &[CallKind<'_>], rest: &mut Cursor<'_>) -> Result<usize, ValueFault>
    requires { rest.old.at ≡ 0 }
    ensures answers { (count : ℕ) → KindAnswers (plain_kinds count kinds.now) rest.old.text.now rest.new.at result }
    ensures same { rest.new.text ≡ rest.old.text }
{
    let head = rest.word();
    let other = TextFault::OtherKey(rest.at);
    let word = value_behind(head.bytes, b"call").ok_or(other)?;
    let kind = kinds
        .iter()
        .position(|kind| kind.word == word)
        .ok_or(other)?;
    rest.at = head.bytes.len();
    Ok(kind)
}

// The kind and the values that a line without its line feed is, or its first fault.
fn read_line<const N: usize>(kinds: &[CallKind<'_>], line: &[u8]) -> Result<Found<N>, CallFault>
    ensures { LineFound (plain_kinds N kinds.now) line.now result }
{
    let mut rest = Cursor { text: line, at: 0 };
    let kind = read_kind(kinds, &mut rest)?;
    let named = kinds[kind];
    let fields = Description {
        rows: named.fields,
        layout: Layout::Fields,
        range_number: named.range_number,
    };
    let values = fields.read(&mut rest)?;
    rest.ends().map_err(CallFault::LeftOver)?;
    Ok(Found { kind, values })
}

fn read_text<const N: usize>(kinds: &[CallKind<'_>], text: &[u8]) -> KindLine<N>
    ensures { TextFound (plain_kinds N kinds.now) text.now result.next result.found }
{
    match (Cursor { text, at: 0 }).cut(LINE_WINDOW) {
        Ok(line) => KindLine {
            found: read_line(kinds, line.bytes),
            next: line.bytes.len() + 1,
        },
        Err(fault) => KindLine {
            found: Err(CallFault::from(ValueFault::from(fault))),
            next: text.len(),
        },
    }
}

// The first line of a text by a table of kinds: which of them it is of, with the values of its fields; or its first fault. And where the next line begins.
// A line has at most 96 bytes with its line feed. Of a kind with more than `N` fields only the first `N` are due.
// `read_text` reads and promises `answers` alone; the other clauses are laws of any answer like that.
pub fn read_kind_line<const N: usize>(kinds: &[CallKind<'_>], text: &[u8]) -> KindLine<N>
    ensures answers { TextFound (plain_kinds N kinds.now) text.now result.next result.found }
    ensures exactly { TakenExactly (plain_kinds N kinds.now) text.now }
    ensures only { HasOneLine (plain_kinds N kinds.now) }
    ensures once { HasOneAnswer (plain_kinds N kinds.now) text.now }
    ensures forward { GoesForward text.now result.next }
{
    read_text(kinds, text)
}
