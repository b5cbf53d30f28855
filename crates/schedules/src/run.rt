ghost use Rattle.std.specs.Prelude.{◌≡◌, length};
ghost use Rattle.tables.specs.Tables.{tasks_of};
ghost use Rattle.schedules.specs.Runs.{Young};

use crate::slot::Progress;
use firsts::job::Job;
use tables::table::Table;

/// A run of a table under an ordering, both borrowed and kept as they are.
#[derive(Drop)]
pub struct Run<'t, 'o, O> {
    pub(crate) table: &'t Table,
    pub(crate) ordering: &'o O,
    pub(crate) progress: Progress,
    // Room to gather the ready jobs of a unit. What it holds between ticks means nothing. It is no `Bounded`: each slot's
    // job is written and only a ready one counted, which a push does not do.
    pub(crate) ready: [Job; 32],
    ghost wide: { length progress.slots ≡ 32 },
    ghost room: { length ready ≡ 32 },
    ghost young: { Young (tasks_of table.now) progress },
}
