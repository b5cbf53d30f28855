ghost use Rattle.orderings.specs.Fixed.{fixed_value};

use crate::keyed::{Key, Keyed};
use tables::task::Task;

/// A job counts with P1 at every age.
#[derive(Clone, Copy)]
pub struct FixedPriority;

impl Key for FixedPriority {
    ghost value = { fixed_value };

    fn of(task: &Task, age: u32) -> i64 {
        i64::from(task.p1)
    }
}

/// Fixed priorities.
pub type Fixed = Keyed<FixedPriority>;
