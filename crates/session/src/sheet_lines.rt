ghost use Rattle.std.specs.Prelude.{◌≡◌, ◌≤◌, length};
ghost use Rattle.session.specs.SheetLines.{end_of_lines};

use sheet::SHEET_LINES;

// Where the first twelve lines of a text end: behind the twelfth line feed, or with the text where it has fewer.
pub fn sheet_end(text: &[u8]) -> usize
    ensures value { result ≡ end_of_lines 12 text.now }
    ensures within { result ≤ length text.now }
{
    text.split_inclusive(|byte| *byte == b'\n')
        .take(SHEET_LINES)
        .map(|line| line.len())
        .sum()
}
