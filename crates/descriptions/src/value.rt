ghost use Rattle.std.specs.Prelude.{◌≡◌};
ghost use Rattle.descriptions.specs.Values.{held_in_16_bits, whole_of};

// The value of a row, whatever it is of.
#[derive(Clone, Copy, Debug, PartialEq, Eq)]
pub enum Value {
    // which of the row's words, counted from 0
    Word(usize),
    Number(i64),
}

impl Value {
    // What memory for values may hold before it is written.
    pub(crate) const BLANK: Value = Value::Number(0);

    // The number that the value is; 0 where it is a word.
    pub fn number(self) -> i64
        ensures { result ≡ whole_of self }
    {
        match self {
            Value::Word(_) => 0,
            Value::Number(number) => number,
        }
    }

    // The number that the value is; 0 where it is a word, or 16 bits do not hold it.
    pub fn number_of_16_bits(self) -> u16
        ensures { result ≡ held_in_16_bits (whole_of self) }
    {
        u16::try_from(self.number()).unwrap_or(0)
    }
}
