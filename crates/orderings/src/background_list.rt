ghost use Rattle.orderings.specs.Places.{listed, NoneTwice};

use bounded::list::Bounded;

/// A list of 0 to 32 task numbers, none of them twice.
#[derive(Clone, Copy)]
pub struct BackgroundList {
    pub(crate) places: Bounded<u32, 32>,
    ghost distinct: { NoneTwice (listed places) },
}
