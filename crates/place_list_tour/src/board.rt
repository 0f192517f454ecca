use place_list::Keyed;

// A board that shows a speed, in tenths of km/h.
#[derive(Clone, Copy, Debug, PartialEq, Eq)]
pub struct Board {
    pub number: u64,
    pub tenths: u16,
}

impl Keyed for Board {
    ghost key_number = { λ b. b.number };

    fn key(&self) -> u64 {
        self.number
    }
}
