ghost use Rattle.std.specs.Prelude.{◌≡◌};
ghost use Rattle.descriptions.specs.Rows.{plain_rows};
ghost use Rattle.sheet.specs.Lines.{sheet_lines};

use descriptions::{NumberRange, Row, ValueKind};

// How many lines a sheet's text has, one for each value.
pub const SHEET_LINES: usize = 12;

// A line whose value is one of some words.
macro_rules! word_line {
    ($key:literal, $words:expr) => {
        Row {
            key: $key,
            kind: ValueKind::Word($words),
        }
    };
}

// A line whose value is a number of at most four digits, from a least to a greatest, in steps.
macro_rules! number_line {
    ($key:literal, $least:literal, $greatest:literal, $step:literal) => {
        Row {
            key: $key,
            kind: ValueKind::Number(NumberRange {
                max_digits: 4,
                least: $least,
                greatest: $greatest,
                step: $step,
            }),
        }
    };
}

const LINES: &[Row<'static>] = &[
    word_line!(b"model", &[b"scmt", b"etcs"]),
    word_line!(b"regime", &[b"E", b"P"]),
    word_line!(b"train", &[b"V", b"M"]),
    word_line!(b"brake", &[b"V", b"M"]),
    number_line!(b"ep", 0, 1, 1),
    number_line!(b"lambda", 45, 160, 5),
    number_line!(b"length", 0, 1000, 1),
    word_line!(b"lfren", &[b"LD", b"LT"]),
    number_line!(b"kr", 30, 150, 1),
    number_line!(b"tw", 0, 100, 1),
    number_line!(b"ti", 0, 100, 1),
    number_line!(b"eps", 0, 20, 1),
];

// The lines of a sheet in their order. The fields of `Values` say what each value means and its unit.
pub fn lines() -> &'static [Row<'static>]
    ensures { plain_rows result.now ≡ sheet_lines }
{
    LINES
}
