ghost use Rattle.std.specs.Prelude.{◌≡◌, min, [], length};
ghost use Rattle.place_list.specs.Sequence.{loan_of, memory_of, room, sequence};

use crate::list::PlaceList;
use crate::placed::Placed;

impl<'a, T: Copy> PlaceList<'a, T> {
    // An empty list over the caller's memory, for as many items as it holds, and no more than `max_len`.
    pub fn new(memory: &'a mut [Placed<T>], max_len: usize) -> PlaceList<'a, T>
        ensures empty { sequence result ≡ [] }
        ensures room { room result ≡ min max_len (length memory.old) }
        ensures max_len { result.max_len ≡ max_len }
        ensures memory { memory_of result ≡ memory.old }
        ensures lent { loan_of result ≡ memory.entry.ghost_name }
    {
        PlaceList {
            memory,
            len: 0,
            max_len,
        }
    }

    // The memory goes back to the caller, with the items at its start.
    pub fn into_memory(self) -> &'a mut [Placed<T>]
        ensures memory { result.now ≡ memory_of self.entry }
        ensures lent { result.ghost_name ≡ loan_of self.entry }
    {
        let PlaceList {
            memory,
            len: _,
            max_len: _,
        } = self;
        memory
    }
}
