ghost use Rattle.std.specs.Prelude.{◌≡◌, ◌+◌, ◌<◌, ◌≤◌, length, IfSome, MatchOption, OnSome, slice_index_or};
ghost use Rattle.std.specs.List.{remove};
ghost use Rattle.place_list.specs.Membership.{OneMore};
ghost use Rattle.place_list.specs.Places.{place_of};
ghost use Rattle.place_list.specs.Removal.{KeepsTurns, TakenFrom};
ghost use Rattle.place_list.specs.Sequence.{Kept, Unaltered, room, sequence};
ghost use Rattle.place_list.specs.Steps.{Removed};

use crate::list::PlaceList;
use crate::placed::Placed;

impl<'a, T: Copy> PlaceList<'a, T> {
    // Takes out the item at the index `at`. Where none stands there the list is left alone.
    pub fn take_out(&mut self, at: usize) -> Option<Placed<T>>
        ensures none { MatchOption result (length (sequence self.old) ≤ at) (λ _. at < length (sequence self.old)) }
        ensures taken { IfSome result (λ x. x ≡ slice_index_or (sequence self.old) at x) }
        ensures result { MatchOption result (Unaltered self.old self.new) (λ _. sequence self.new ≡ remove (sequence self.old) at) }
        ensures stood { IfSome result (λ x. TakenFrom at x (sequence self.old) (sequence self.new)) }
        ensures members { IfSome result (λ x. OneMore x (sequence self.new) (sequence self.old)) }
        ensures turns { IfSome result (λ x. KeepsTurns place_of x (sequence self.old) (sequence self.new)) }
        ensures room { OnSome result (room self.new ≡ room self.old + 1) }
        ensures next_fits { OnSome result (0 < room self.new) }
        ensures kept { Kept self.old self.new }
    {
        if at >= self.len {
            return None;
        }
        Some(self.close_up(at))
    }

    // Moves the items behind the index `at` one to the front, over the one that stands there.
    fn close_up(&mut self, at: usize) -> Placed<T>
        requires { at < self.old.len }
        ensures { Removed at result self.old self.new }
    {
        let taken = self.memory[at];
        self.memory.copy_within(at + 1..self.len, at);
        self.len -= 1;
        taken
    }
}
