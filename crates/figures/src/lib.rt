#![tactic(auto)]

ghost use Rattle.std.specs.Prelude.{◌≡◌, Some, pos};
ghost use Rattle.braking.specs.Answers.{Says};
ghost use Rattle.figures.specs.Sheets.{sheet_a};
ghost use Rattle.figures.specs.Stated.{Stated, to_stop, verdict_on};

use braking::Distances;
use sheet::{LengthChoice, Model, Regime, Service, Values};
use units::Distance;

// The sheet of the worked figures, and with it the figures: each follows from the rules of the two models.
pub fn sheet_a() -> Values
    ensures values { result ≡ sheet_a }
    ensures figures { Stated }
{
    Values {
        model: Model::Scmt,
        regime: Regime::Operation,
        train: Service::Passenger,
        brake: Service::Passenger,
        ep: 0,
        lambda: 100,
        length: 400,
        lfren: LengthChoice::Fixed,
        kr: 100,
        tw: 20,
        ti: 30,
        eps: 0,
    }
}

// The distances of that sheet from 100 km/h to a stop on the level.
pub fn distances_on_the_level() -> Distances
    ensures { Says (verdict_on sheet_a (to_stop (pos 0))) (Some result) }
{
    Distances {
        control: Distance {
            millimetres: 787_963,
        },
        warning: Distance {
            millimetres: 843_519,
        },
        nominal: Distance {
            millimetres: 926_853,
        },
    }
}
