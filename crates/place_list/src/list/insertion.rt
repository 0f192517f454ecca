ghost use Rattle.std.specs.Prelude.{◌≡◌, ◌+◌, ◌-◌, ◌<◌, ◌≤◌, length, take, MatchResult, OnOk};
ghost use Rattle.std.specs.List.{insert};
ghost use Rattle.place_list.specs.declared.refusal.Refusal.TheVariants.{Full};
ghost use Rattle.place_list.specs.Insertion.{ComesLast, PutIn, placed_in};
ghost use Rattle.place_list.specs.Membership.{OneMore};
ghost use Rattle.place_list.specs.Places.{place_of};
ghost use Rattle.place_list.specs.Position.{GreaterFrom, NotGreaterBefore};
ghost use Rattle.place_list.specs.Sequence.{Kept, Unaltered, capacity, room, sequence};
ghost use Rattle.place_list.specs.Steps.{Inserted};

use crate::list::PlaceList;
use crate::placed::Placed;
use crate::refusal::Refusal;
use units::Distance;

impl<'a, T: Copy> PlaceList<'a, T> {
    // Puts an item behind those whose place is not greater. Where the list is full it is left alone.
    pub fn insert(&mut self, new: Placed<T>) -> Result<(), Refusal>
        ensures refused { MatchResult result (λ _. 0 < room self.old) (λ e. (e ≡ Full) × (room self.old ≡ 0)) }
        ensures result { MatchResult result (λ _. sequence self.new ≡ placed_in place_of new (sequence self.old)) (λ _. Unaltered self.old self.new) }
        ensures stands { OnOk result (PutIn place_of new (sequence self.old) (sequence self.new)) }
        ensures members { OnOk result (OneMore new (sequence self.old) (sequence self.new)) }
        ensures turns { OnOk result (ComesLast place_of new (sequence self.old) (sequence self.new)) }
        ensures room { OnOk result (room self.new + 1 ≡ room self.old) }
        ensures kept { Kept self.old self.new }
    {
        if self.len >= self.capacity() {
            return Err(Refusal::Full);
        }
        self.put_at(self.index_for(new.place), new);
        Ok(())
    }

    // The index behind the last item whose place is not greater.
    fn index_for(&self, place: Distance) -> usize
        ensures upto { result ≤ length (sequence self.now) }
        ensures before { NotGreaterBefore place_of place.millimetres result (sequence self.now) }
        ensures behind { GreaterFrom place_of place.millimetres result (sequence self.now) }
    {
        // along a line most items come in the order of their places
        match self.items().last() {
            Some(last) if last.place > place => self.index_by_halves(place),
            _ => self.len,
        }
    }

    // The same index, looked for by halves.
    fn index_by_halves(&self, place: Distance) -> usize
        ensures upto { result ≤ length (sequence self.now) }
        ensures before { NotGreaterBefore place_of place.millimetres result (sequence self.now) }
        ensures behind { GreaterFrom place_of place.millimetres result (sequence self.now) }
    {
        self.items().partition_point(|x| x.place <= place)
    }

    // Moves the items from the index `at` on one further, and puts the new one there.
    fn put_at(&mut self, at: usize, new: Placed<T>)
        requires fits { self.old.len < capacity self.old }
        requires upto { at ≤ length (sequence self.old) }
        requires before { NotGreaterBefore place_of (place_of new) at (sequence self.old) }
        requires behind { GreaterFrom place_of (place_of new) at (sequence self.old) }
        ensures { Inserted new self.old self.new }
    {
        put_in(&mut self.memory[..=self.len], at, new);
        self.len += 1;
    }
}

// Puts an item in at the index `at`: those from there on move one further, the last of them out of the slice.
fn put_in<T: Copy>(items: &mut [T], at: usize, new: T)
    requires { at < length items.old }
    ensures { items.new ≡ insert (take (length items.old - 1) items.old) at new }
{
    items[at..].rotate_right(1);
    items[at] = new;
}
