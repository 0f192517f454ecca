ghost use Rattle.std.specs.Prelude.{◌≡◌, unsigned_abs};
ghost use Rattle.descriptions.specs.Values.{whole_of};
ghost use Rattle.call_text.specs.Calls.{call_kinds, parts_of};
ghost use Rattle.call_text.specs.Kinds.{IsOfKind};
ghost use Rattle.call_text.specs.Reading.{values_of};

use crate::kind_line::Found;
use crate::kinds::MAX_FIELDS;
use calls::Call;
use descriptions::Value;
use units::{Distance, Grade, Speed};

// The call that a line of one of the kinds is.
pub(crate) fn call_of(found: Found<MAX_FIELDS>) -> Call
    requires { IsOfKind call_kinds (values_of call_kinds found).0 (values_of call_kinds found).1 }
    ensures { parts_of result ≡ values_of call_kinds found }
{
    let [first, second, third, fourth] = found.values;
    match found.kind {
        0 => Call::Slope {
            place: distance(first),
            grade: grade(second),
        },
        1 => Call::Announce {
            number: first.number_of_16_bits(),
            point: distance(second),
            distance: distance(third),
            speed: speed(fourth),
        },
        2 => Call::Withdraw {
            number: first.number_of_16_bits(),
        },
        3 => Call::Ceiling {
            place: distance(first),
            speed: speed(second),
        },
        4 => Call::Lift {
            place: distance(first),
        },
        5 => Call::Sample {
            place: distance(first),
            speed: speed(second),
        },
        // the last kind
        _ => Call::Release,
    }
}

fn amount(value: Value) -> u64
    ensures { result ≡ unsigned_abs (whole_of value) }
{
    value.number().unsigned_abs()
}

fn distance(value: Value) -> Distance
    ensures { result.millimetres ≡ unsigned_abs (whole_of value) }
{
    Distance {
        millimetres: amount(value),
    }
}

fn speed(value: Value) -> Speed
    ensures { result.tenths ≡ unsigned_abs (whole_of value) }
{
    Speed {
        tenths: amount(value),
    }
}

fn grade(value: Value) -> Grade
    ensures { result.thousandths ≡ whole_of value }
{
    Grade {
        thousandths: value.number(),
    }
}
