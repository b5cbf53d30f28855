ghost use Rattle.std.specs.Prelude.{◌≤◌};
ghost use Rattle.tables.specs.Tasks.{listed, Each, Timed, Ranked};
ghost use Rattle.tables.specs.Hyperperiod.{hyperperiod_of};

use crate::task::Task;
use bounded::list::Bounded;

/// A table of 0 to 32 tasks, numbered from 0 as they were added. Every table keeps the bounds below.
// A rule of the project: the array lies in an inner struct, and the table carries what is true of its tasks.
#[derive(Clone, Copy)]
pub struct Table {
    pub(crate) rows: Bounded<Task, 32>,
    ghost timed: { Each Timed (listed rows) },
    ghost ranked: { Each Ranked (listed rows) },
    ghost short: { hyperperiod_of (listed rows) ≤ 1000000000 },
}
