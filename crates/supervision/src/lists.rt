ghost use Rattle.std.specs.Prelude.{◌≡◌, ◌≤◌, true};
ghost use Rattle.history.specs.State.{valid_ceilings, valid_sections, valid_targets};
ghost use Rattle.place_list.specs.Sequence.{capacity, sequence};
ghost use Rattle.supervision.specs.Items.{ceilings_in, sections_in, targets_in};

mod changes;

use crate::memory::{MAX_CEILINGS, MAX_SECTIONS, MAX_TARGETS, Memory};
use crate::target::Target;
use place_list::{PlaceList, Placed};
use units::{Grade, Speed};

// The lists of a mission: what stands along its line, in memory that a caller lends. They are made with their mission, go with each of its calls, and only those alter them.
#[derive(Drop)]
pub struct Lists<'a> {
    sections: PlaceList<'a, Grade>,
    targets: PlaceList<'a, Target>,
    // the speed of each ceiling
    ceilings: PlaceList<'a, Speed>,
    pub ghost few_sections: { capacity sections ≤ 64 },
    pub ghost few_targets: { capacity targets ≤ 32 },
    pub ghost few_ceilings: { capacity ceilings ≤ 48 },
    // each section begins further on than the one before it, and its grade is within limits
    pub ghost sections_valid: { valid_sections (sections_in (sequence sections)) ≡ true },
    // no two targets have the same number
    pub ghost targets_valid: { valid_targets (targets_in (sequence targets)) ≡ true },
    // each ceiling begins further on than the one before it
    pub ghost ceilings_valid: { valid_ceilings (ceilings_in (sequence ceilings)) ≡ true },
}

impl<'a> Lists<'a> {
    ghost use Rattle.supervision.specs.Lists.{LentBy, opened_track, track_of};

    // The empty lists of a mission that is opened: at most 64 sections, 32 targets and 48 ceilings, fewer in shorter memory.
    pub(crate) fn new(memory: Memory<'a>) -> Lists<'a>
        ensures empty { track_of result ≡ opened_track memory.entry }
        ensures lent { LentBy memory.entry result }
    {
        Lists {
            sections: PlaceList::new(memory.sections, MAX_SECTIONS),
            targets: PlaceList::new(memory.targets, MAX_TARGETS),
            ceilings: PlaceList::new(memory.ceilings, MAX_CEILINGS),
        }
    }

    // The sections, in the order of their places.
    pub fn sections(&self) -> &[Placed<Grade>]
        ensures { result.now ≡ sequence self.now.sections }
    {
        self.sections.items()
    }

    // The targets, in the order of their places.
    pub fn targets(&self) -> &[Placed<Target>]
        ensures { result.now ≡ sequence self.now.targets }
    {
        self.targets.items()
    }

    // The ceilings, in the order of their places, each with the speed that it allows.
    pub fn ceilings(&self) -> &[Placed<Speed>]
        ensures { result.now ≡ sequence self.now.ceilings }
    {
        self.ceilings.items()
    }

    // The memory goes back to the caller, with the items at the start of each part.
    pub fn into_memory(self) -> Memory<'a>
        ensures { LentBy result self.entry }
    {
        let Lists {
            sections,
            targets,
            ceilings,
        } = self;
        Memory {
            sections: sections.into_memory(),
            targets: targets.into_memory(),
            ceilings: ceilings.into_memory(),
        }
    }
}
