ghost use Rattle.std.specs.Prelude.{Some};

use crate::distances::Distances;
use crate::refusal::Refusal;
use std::fmt;

// What a model answers to a question, to be printed: the three distances, `weak`, or the refusal. A struct around it, since `Display` is foreign to a `Result`.
#[derive(Clone, Copy, Debug, PartialEq, Eq)]
pub struct PrintedAnswer {
    pub answer: Result<Option<Distances>, Refusal>,
}

impl fmt::Display for PrintedAnswer {
    ghost use Rattle.braking.specs.Printed.{answer_text};

    ghost output = { λ p. Some (answer_text p.answer) };

    fn fmt<W: fmt::Write>(&self, f: &mut fmt::Formatter<W>) -> fmt::Result {
        match self.answer {
            Ok(Some(distances)) => write!(f, "{distances}"),
            Ok(None) => f.write_str("weak"),
            Err(refusal) => write!(f, "{refusal}"),
        }
    }
}
