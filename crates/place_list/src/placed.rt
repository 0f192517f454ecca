use units::Distance;

// An item and the place where it stands.
#[derive(Clone, Copy, Debug, Default, PartialEq, Eq)]
pub struct Placed<T> {
    pub place: Distance,
    pub item: T,
}
