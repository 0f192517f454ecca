ghost use Rattle.std.specs.Prelude.{◌≡◌, length};
ghost use Rattle.place_list.specs.Order.{Ascending};
ghost use Rattle.place_list.specs.Places.{place_of};
ghost use Rattle.place_list.specs.Sequence.{capacity, room, sequence};

use crate::list::PlaceList;
use crate::placed::Placed;

impl<'a, T: Copy> PlaceList<'a, T> {
    // The items, in the order of their places.
    pub fn items(&self) -> &[Placed<T>]
        ensures value { result.now ≡ sequence self.now }
        ensures order { Ascending place_of result.now }
    {
        &self.memory[..self.len]
    }

    // How many items stand in the list.
    pub fn len(&self) -> usize
        ensures { result ≡ length (sequence self.now) }
    {
        self.len
    }

    // How many more items fit.
    pub fn room(&self) -> usize
        ensures { result ≡ room self.now }
    {
        self.capacity() - self.len
    }

    // How many items fit, with those that stand in the list.
    pub(super) fn capacity(&self) -> usize
        ensures { result ≡ capacity self.now }
    {
        self.max_len.min(self.memory.len())
    }
}
