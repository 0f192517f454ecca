ghost use Rattle.std.specs.Prelude.{◌≡◌, ◌<◌, false, length, IfSome};
ghost use Rattle.history.specs.State.{is_unfit};
ghost use Rattle.history.specs.Step.{ceiling_obstacles, lift_obstacles, section_obstacles, target_obstacles, with_ceiling, with_section, with_target, withdrawal_obstacles, without_ceiling, without_target};
ghost use Rattle.place_list.specs.Sequence.{sequence};
ghost use Rattle.supervision.specs.Adding.{Added, Taken};
ghost use Rattle.supervision.specs.Items.{ceiling_of, section_of, target_of};
ghost use Rattle.supervision.specs.Lists.{Changes, track_of};

use crate::lists::Lists;
use crate::target::Target;
use calls::Refusal;
use place_list::{Keyed, PlaceList, Placed};
use units::{Distance, Grade, Speed};

impl<'a> Lists<'a> {
    // Adds a section, unless one begins at the place or no more fit.
    pub(crate) fn add_section(&mut self, new: Placed<Grade>) -> Result<(), Refusal>
        requires { is_unfit new.item.thousandths ≡ false }
        ensures changes { Changes (section_obstacles new.place.millimetres (track_of self.old)) (with_section (section_of new) (track_of self.old)) self.old self.new result }
        ensures targets { self.new.targets ≡ self.old.targets }
        ensures ceilings { self.new.ceilings ≡ self.old.ceilings }
    {
        let taken = self.sections.find_place(new.place).is_some();
        add(&mut self.sections, taken, new)
    }

    // Adds a target, unless its number is taken or no more fit.
    pub(crate) fn add_target(&mut self, new: Placed<Target>) -> Result<(), Refusal>
        ensures changes { Changes (target_obstacles new.item.number (track_of self.old)) (with_target (target_of new) (track_of self.old)) self.old self.new result }
        ensures sections { self.new.sections ≡ self.old.sections }
        ensures ceilings { self.new.ceilings ≡ self.old.ceilings }
    {
        let taken = self.targets.find_key(new.item.key()).is_some();
        add(&mut self.targets, taken, new)
    }

    // Takes the target with the number out, if there is one.
    pub(crate) fn take_target(&mut self, number: u16) -> Result<(), Refusal>
        ensures changes { Changes (withdrawal_obstacles number (track_of self.old)) (without_target number (track_of self.old)) self.old self.new result }
        ensures sections { self.new.sections ≡ self.old.sections }
        ensures ceilings { self.new.ceilings ≡ self.old.ceilings }
    {
        let found = self.targets.find_key(u64::from(number));
        take(&mut self.targets, found)
    }

    // Adds a ceiling, unless one begins at the place or no more fit.
    pub(crate) fn add_ceiling(&mut self, new: Placed<Speed>) -> Result<(), Refusal>
        ensures changes { Changes (ceiling_obstacles new.place.millimetres (track_of self.old)) (with_ceiling (ceiling_of new) (track_of self.old)) self.old self.new result }
        ensures sections { self.new.sections ≡ self.old.sections }
        ensures targets { self.new.targets ≡ self.old.targets }
    {
        let taken = self.ceilings.find_place(new.place).is_some();
        add(&mut self.ceilings, taken, new)
    }

    // Takes the ceiling at the place out, if there is one.
    pub(crate) fn take_ceiling(&mut self, place: Distance) -> Result<(), Refusal>
        ensures changes { Changes (lift_obstacles place.millimetres (track_of self.old)) (without_ceiling place.millimetres (track_of self.old)) self.old self.new result }
        ensures sections { self.new.sections ≡ self.old.sections }
        ensures targets { self.new.targets ≡ self.old.targets }
    {
        let found = self.ceilings.find_place(place);
        take(&mut self.ceilings, found)
    }
}

// Adds an item, unless one stands in its way or no more fit.
fn add<T: Copy>(list: &mut PlaceList<'_, T>, taken: bool, new: Placed<T>) -> Result<(), Refusal>
    ensures { Added taken new list.old list.new result }
{
    if taken {
        return Err(Refusal::Conflict);
    }
    list.insert(new).map_err(|_| Refusal::Full)
}

// Takes out the item that was found in the list, if there is one.
fn take<T: Copy>(list: &mut PlaceList<'_, T>, found: Option<usize>) -> Result<(), Refusal>
    requires { IfSome found (λ at. at < length (sequence list.old)) }
    ensures { Taken found list.old list.new result }
{
    let at = found.ok_or(Refusal::Conflict)?;
    // the index is that of an item, so the `unwrap` never fails
    list.take_out(at).unwrap();
    Ok(())
}
