ghost use Rattle.orderings.specs.Deadline.{deadline_value};

use crate::keyed::{Key, Keyed};
use tables::task::Task;

/// A job counts with D - a, the units up to its deadline. Past its deadline it counts with a negative number.
#[derive(Clone, Copy)]
pub struct UnitsToDeadline;

impl Key for UnitsToDeadline {
    ghost value = { deadline_value };

    fn of(task: &Task, age: u32) -> i64 {
        i64::from(task.d) - i64::from(age)
    }
}

/// Deadlines: the job whose deadline is nearer is ahead.
pub type Deadline = Keyed<UnitsToDeadline>;
