use crate::call_kind::CallKind;
use descriptions::{NumberRange, Row, ValueKind};

// How many fields a kind of call has at most.
pub(crate) const MAX_FIELDS: usize = 4;

// The number that a value out of its range is refused with.
const RANGE_NUMBER: u8 = 4;

// Any number that ten digits write. The call itself asks whether a place, a speed or a grade is within its limits.
const TEN_DIGITS: NumberRange = NumberRange {
    max_digits: 10,
    least: -9_999_999_999,
    greatest: 9_999_999_999,
    step: 1,
};

// A place or distance in mm, a speed in tenths of km/h: never below 0.
macro_rules! amount {
    ($key:literal) => {
        Row {
            key: $key,
            kind: ValueKind::Number(TEN_DIGITS),
        }
    };
}

// The number of a target, which 16 bits hold.
const NUMBER: Row<'static> = Row {
    key: b"number",
    kind: ValueKind::Number(NumberRange {
        max_digits: 10,
        least: 0,
        greatest: 65_535,
        step: 1,
    }),
};

// A grade in thousandths, the only value that may be below 0.
const GRADE: Row<'static> = Row {
    key: b"grade",
    kind: ValueKind::Signed(TEN_DIGITS),
};

// What a ceiling and a sample state.
const PLACE_AND_SPEED: &[Row<'static>] = &[amount!(b"place"), amount!(b"speed")];

// All kinds of call.
pub(crate) const KINDS: [CallKind<'static>; 7] = [
    CallKind {
        word: b"slope",
        fields: &[amount!(b"place"), GRADE],
        range_number: RANGE_NUMBER,
    },
    CallKind {
        word: b"announce",
        fields: &[
            NUMBER,
            amount!(b"point"),
            amount!(b"distance"),
            amount!(b"speed"),
        ],
        range_number: RANGE_NUMBER,
    },
    CallKind {
        word: b"withdraw",
        fields: &[NUMBER],
        range_number: RANGE_NUMBER,
    },
    CallKind {
        word: b"ceiling",
        fields: PLACE_AND_SPEED,
        range_number: RANGE_NUMBER,
    },
    CallKind {
        word: b"lift",
        fields: &[amount!(b"place")],
        range_number: RANGE_NUMBER,
    },
    CallKind {
        word: b"sample",
        fields: PLACE_AND_SPEED,
        range_number: RANGE_NUMBER,
    },
    CallKind {
        word: b"release",
        fields: &[],
        range_number: RANGE_NUMBER,
    },
];
