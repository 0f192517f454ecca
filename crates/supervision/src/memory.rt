use crate::target::Target;
use place_list::Placed;
use units::{Grade, Speed};

// How many sections, targets and ceilings a mission's lists hold at most.
pub const MAX_SECTIONS: usize = 64;

pub const MAX_TARGETS: usize = 32;

pub const MAX_CEILINGS: usize = 48;

// The memory that a caller lends for a mission's lists, holding anything. Where it is shorter than the most that a list holds, the list is full sooner.
#[derive(Drop)]
pub struct Memory<'a> {
    pub sections: &'a mut [Placed<Grade>],
    pub targets: &'a mut [Placed<Target>],
    pub ceilings: &'a mut [Placed<Speed>],
}
