ghost use Rattle.std.specs.Prelude.{◌≡◌, ◌+◌, ◌≤◌, ◌++◌, length, take, drop, decimal};
ghost use Rattle.numerals.specs.Writing.{EndsWithin, NumberWritten};
ghost use Rattle.numerals.specs.Laws.{WrittenIsRead};

use crate::digit::last_digit;
use crate::width::digit_count;

// Writes the decimal digits of the number from the byte `at` on and answers the byte behind the last one. The bytes before and behind them stay.
// Where the digits do not fit it answers `None` and alters nothing.
// A private function writes and promises `written` alone; that what was written is read back follows for any that does.
pub fn write_number(out: &mut [u8], at: usize, number: u64) -> Option<usize>
    ensures written { NumberWritten out.old at number out.new result }
    ensures read_back { WrittenIsRead }
{
    write_fitting(out, at, number)
}

fn write_fitting(out: &mut [u8], at: usize, number: u64) -> Option<usize>
    ensures { NumberWritten out.old at number out.new result }
{
    let end = end_within(out.len(), at, digit_count(number))?;
    put_digits(out, at, end, number);
    Some(end)
}

// Where `count` bytes from `at` on end, if they end within the first `room` ones.
fn end_within(room: usize, at: usize, count: usize) -> Option<usize>
    ensures { EndsWithin room at count result }
{
    at.checked_add(count).filter(|end| *end <= room)
}

// Writes all digits of the number from `at` to `end`, the last one first.
// The loop goes by index, since its invariant speaks of the bytes that are written so far.
fn put_digits(out: &mut [u8], at: usize, end: usize, number: u64)
    requires all { end ≡ at + length (decimal number) }
    requires fits { end ≤ length out.old }
    ensures { out.new ≡ take at out.old ++ (decimal number ++ drop end out.old) }
{
    let mut left = number;
    for place in (at..end).rev() {
        out[place] = last_digit(left);
        left /= 10;
    }
}
