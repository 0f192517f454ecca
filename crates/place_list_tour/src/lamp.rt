ghost use Rattle.place_list_tour.specs.Lamps.{lamp_number};

use place_list::Keyed;

mod colour;

pub use colour::Lamp;

impl Keyed for Lamp {
    ghost key_number = { λ l. lamp_number l };

    fn key(&self) -> u64 {
        *self as u64
    }
}
