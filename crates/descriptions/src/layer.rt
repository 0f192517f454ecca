ghost use Rattle.std.specs.Prelude.{◌≡◌, Some};
ghost use Rattle.descriptions.specs.Faults.{layer_word};

use std::fmt;

// What a fault is about.
#[derive(Clone, Copy, Debug, PartialEq, Eq)]
pub enum Layer {
    // a line, a key, or the form of a value
    Text,
    // the range of a value
    Value,
    // the sheet, or the call line, as a whole
    Sheet,
}

impl Layer {
    // The layer's word.
    pub fn word(self) -> &'static str
        ensures { result.now ≡ layer_word self }
    {
        match self {
            Layer::Text => "text",
            Layer::Value => "value",
            Layer::Sheet => "sheet",
        }
    }
}

// A layer prints as its word.
impl fmt::Display for Layer {
    ghost output = { λ layer. Some (layer_word layer) };

    fn fmt<W: fmt::Write>(&self, f: &mut fmt::Formatter<W>) -> fmt::Result {
        f.write_str(self.word())
    }
}
