ghost use Rattle.std.specs.Prelude.{◌≡◌, nat_le, take, true};
ghost use Rattle.std.specs.List.{prefix_len};
ghost use Rattle.history.specs.State.{valid_sections};
ghost use Rattle.supervision.specs.Items.{sections_in};

use place_list::Placed;
use units::{Distance, Grade};

// The sections of a line, each with the place that it begins at and its grade from there on. By their type each begins further on than the one before it, and its grade is from -35 to 35 thousandths, as a mission's lists hold them.
#[derive(Clone, Copy)]
pub struct Sections<'a> {
    pub items: &'a [Placed<Grade>],
    ghost valid: { valid_sections (sections_in items.now) ≡ true },
}

impl<'a> Sections<'a> {
    // Those that begin up to a place.
    pub(crate) fn up_to(self, place: Distance) -> &'a [Placed<Grade>]
        ensures { result.now ≡ take (prefix_len (λ x. nat_le x.place.millimetres place.millimetres) self.entry.items.now) self.entry.items.now }
    {
        let count = self.items.partition_point(|section| section.place <= place);
        &self.items[..count]
    }
}
