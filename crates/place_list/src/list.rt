ghost use Rattle.std.specs.Prelude.{◌≡◌, ◌≤◌, true, length, take};
ghost use Rattle.place_list.specs.Order.{ascends};
ghost use Rattle.place_list.specs.Places.{place_of};

mod finding;
mod insertion;
mod making;
mod reading;
mod removal;

use crate::placed::Placed;

// Items in memory that the caller lends, in the order of their places; at the same place they stand in the order in which they came. No heap is used.
#[derive(Drop)]
pub struct PlaceList<'a, T> {
    memory: &'a mut [Placed<T>],
    // how much of the memory is in use, from its start
    len: usize,
    // how many items are allowed, however long the memory
    max_len: usize,
    ghost within: { len ≤ length memory.now },
    ghost allowed: { len ≤ max_len },
    ghost ascending: { ascends place_of (take len memory.now) ≡ true },
}
