ghost use Rattle.std.specs.Prelude.{Some};

use std::fmt;
use units::{Distance, Grade, Speed};

// What a mission is asked to do.
#[derive(Clone, Copy, Debug, PartialEq, Eq)]
pub enum Call {
    // the track has this grade from the place on, up to the next section
    Slope {
        place: Distance,
        grade: Grade,
    },
    // no more than this speed from the place that lies this distance beyond the point, less eps percent of the distance
    Announce {
        number: u16,
        point: Distance,
        distance: Distance,
        speed: Speed,
    },
    // the target with this number holds no longer
    Withdraw {
        number: u16,
    },
    // no more than this speed from the place on, up to the next ceiling, with no braking distance in front of it
    Ceiling {
        place: Distance,
        speed: Speed,
    },
    // the ceiling at this place holds no longer
    Lift {
        place: Distance,
    },
    // the front of the train is at this place and runs this fast
    Sample {
        place: Distance,
        speed: Speed,
    },
    // let the emergency brake go
    Release,
}

// A call prints as its word and its values, each a bare number in the unit of its quantity.
impl fmt::Display for Call {
    ghost use Rattle.calls.specs.Printed.{call_text};

    ghost output = { λ c. Some (call_text c) };

    fn fmt<W: fmt::Write>(&self, f: &mut fmt::Formatter<W>) -> fmt::Result {
        match self {
            Call::Slope { place, grade } => write!(
                f,
                "slope place={} grade={}",
                place.millimetres, grade.thousandths
            ),
            Call::Announce {
                number,
                point,
                distance,
                speed,
            } => write!(
                f,
                "announce number={number} point={} distance={} speed={}",
                point.millimetres, distance.millimetres, speed.tenths
            ),
            Call::Withdraw { number } => write!(f, "withdraw number={number}"),
            Call::Ceiling { place, speed } => write!(
                f,
                "ceiling place={} speed={}",
                place.millimetres, speed.tenths
            ),
            Call::Lift { place } => write!(f, "lift place={}", place.millimetres),
            Call::Sample { place, speed } => write!(
                f,
                "sample place={} speed={}",
                place.millimetres, speed.tenths
            ),
            Call::Release => f.write_str("release"),
        }
    }
}
