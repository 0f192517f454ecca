ghost use Rattle.place_list.specs.Finding.{Found};
ghost use Rattle.place_list.specs.Places.{place_of};
ghost use Rattle.place_list.specs.Sequence.{sequence};

use crate::keyed::Keyed;
use crate::list::PlaceList;
use units::Distance;

impl<'a, T: Copy> PlaceList<'a, T> {
    // The index of the first item at the place.
    pub fn find_place(&self, place: Distance) -> Option<usize>
        ensures { Found place_of place.millimetres (sequence self.now) result }
    {
        let at = self.items().partition_point(|x| x.place < place);
        let first = self.items().get(at)?;
        (first.place == place).then_some(at)
    }
}

impl<'a, T: Copy + Keyed> PlaceList<'a, T> {
    // The index of the first item with the key. The order is by place, so it is looked for from the start.
    pub fn find_key(&self, key: u64) -> Option<usize>
        ensures { Found (λ y. T.Keyed.key_number y.item) key (sequence self.now) result }
    {
        self.items().iter().position(|x| x.item.key() == key)
    }
}
