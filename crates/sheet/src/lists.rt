ghost use Rattle.std.specs.Prelude.{◌≡◌, true};
ghost use Rattle.descriptions.specs.Fitting.{all_fit};
ghost use Rattle.sheet.specs.Lines.{list_of, sheet_lines};
ghost use Rattle.sheet.specs.Lists.{IsMadeBack, ValuesMade, choice_of};

use crate::sheet_lines::{SHEET_LINES, lines};
use crate::values::Values;
use crate::words::{LengthChoice, Model, Regime, Service};
use descriptions::{Value, all_fit};

impl Values {
    // The values in the order of the lines. A word's value is its place among the line's words, counted from 0.
    pub fn list(&self) -> [Value; SHEET_LINES]
        ensures { result ≡ list_of self.now }
    {
        [
            Value::Word(self.model as usize),
            Value::Word(self.regime as usize),
            Value::Word(self.train as usize),
            Value::Word(self.brake as usize),
            Value::Number(i64::from(self.ep)),
            Value::Number(i64::from(self.lambda)),
            Value::Number(i64::from(self.length)),
            Value::Word(self.lfren as usize),
            Value::Number(i64::from(self.kr)),
            Value::Number(i64::from(self.tw)),
            Value::Number(i64::from(self.ti)),
            Value::Number(i64::from(self.eps)),
        ]
    }

    // The sheet with these values in the order of the lines; `None` where they do not fit the lines.
    #[tactic(auto, using(crate::proofs::OneList::back))]
    pub fn from_list(list: &[Value; SHEET_LINES]) -> Option<Values>
        ensures made { ValuesMade list.now result }
        ensures back { IsMadeBack list.now result }
    {
        if all_fit(lines(), list) {
            Some(Values::of_fitting(list))
        } else {
            None
        }
    }

    fn of_fitting(list: &[Value; SHEET_LINES]) -> Values
        requires { all_fit sheet_lines list.now ≡ true }
        ensures { list_of result ≡ list.now }
    {
        let [
            model,
            regime,
            train,
            brake,
            ep,
            lambda,
            length,
            lfren,
            kr,
            tw,
            ti,
            eps,
        ] = *list;
        Values {
            model: choice(model, Model::Scmt, Model::Etcs),
            regime: choice(regime, Regime::Operation, Regime::Trial),
            train: choice(train, Service::Passenger, Service::Goods),
            brake: choice(brake, Service::Passenger, Service::Goods),
            ep: ep.number_of_16_bits(),
            lambda: lambda.number_of_16_bits(),
            length: length.number_of_16_bits(),
            lfren: choice(lfren, LengthChoice::Fixed, LengthChoice::Train),
            kr: kr.number_of_16_bits(),
            tw: tw.number_of_16_bits(),
            ti: ti.number_of_16_bits(),
            eps: eps.number_of_16_bits(),
        }
    }
}

// The first of two things for the first word, else the second.
fn choice<T: Copy>(value: Value, first: T, second: T) -> T
    ensures { result ≡ choice_of value first second }
{
    match value {
        Value::Word(0) => first,
        _ => second,
    }
}
