ghost use Rattle.std.specs.Prelude.{◌≡◌};
ghost use Rattle.supervision.specs.Missions.{Law, Made};

use crate::lists::Lists;
use crate::mission::Mission;
use braking::BrakingModel;
use calls::{Answer, Call, Record};

impl<M: BrakingModel> Mission<M> {
    // Any of the calls, with the entry that it leaves in the history.
    pub fn apply(&mut self, lists: &mut Lists<'_>, call: Call) -> Record
        ensures call { result.call ≡ call }
        ensures phase { result.phase ≡ self.new.phase }
        ensures made { Made M.BrakingModel.meaning call result.answer self.old self.new lists.old lists.new }
        ensures law { Law M.BrakingModel.meaning call result.answer self.old self.new lists.old lists.new }
    {
        let answer = self.make(lists, call);
        Record {
            call,
            answer,
            phase: self.phase,
        }
    }

    // Makes the call and gives its answer, with a zone where it is a sample.
    fn make(&mut self, lists: &mut Lists<'_>, call: Call) -> Answer
        ensures { Made M.BrakingModel.meaning call result self.old self.new lists.old lists.new }
    {
        match call {
            Call::Slope { place, grade } => self.slope(lists, place, grade).map(|_| None),
            Call::Announce {
                number,
                point,
                distance,
                speed,
            } => self
                .announce(lists, number, point, distance, speed)
                .map(|_| None),
            Call::Withdraw { number } => self.withdraw(lists, number).map(|_| None),
            Call::Ceiling { place, speed } => self.ceiling(lists, place, speed).map(|_| None),
            Call::Lift { place } => self.lift(lists, place).map(|_| None),
            Call::Sample { place, speed } => self
                .sample(lists, place, speed)
                .map(|sample| Some(sample.zone)),
            Call::Release => self.release(lists).map(|_| None),
        }
    }
}
