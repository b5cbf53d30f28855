ghost use Rattle.std.specs.Prelude.{◌≡◌};
ghost use Rattle.tables.specs.Tables.{tasks_of};
ghost use Rattle.schedules.specs.Schedule.{verdict_of, SaysOfEndless};
ghost use Rattle.schedules.specs.InBackground.{HoldsInBackgroundToo};
ghost use Rattle.schedules.specs.Live.{LiveStaysWithinFull, SaysOfEveryLiveRun};

use crate::run::Run;
use orderings::ordering::Ordering;
use tables::table::Table;

/// The first miss of a schedule.
#[derive(Clone, Copy, Debug, PartialEq, Eq)]
pub struct Miss {
    /// The task that misses, the lowest number of several.
    pub task: u32,
    /// The number of ticks up to the miss.
    pub instant: u32,
}

/// Whether all jobs of the endless full schedule meet their deadlines.
// A rule of the project: no Option. Both answers have a name, and the miss is the record that a stuck search holds, too.
#[derive(Clone, Copy, Debug, PartialEq, Eq)]
pub enum Verdict {
    Holds,
    Misses(Miss),
}

impl Verdict {
    /// The verdict on a table under an ordering, from at most one hyperperiod of the full schedule.
    pub fn of<O: Ordering>(table: &Table, ordering: &O) -> Verdict
        ensures value { result ≡ verdict_of (tasks_of table.now) (O.ahead ordering.now) }
        ensures says_of_the_endless_schedule { SaysOfEndless (tasks_of table.now) (O.ahead ordering.now) result }
        ensures says_of_every_live_run { SaysOfEveryLiveRun (tasks_of table.now) (O.ahead ordering.now) result }
        ensures holds_under_the_background_layer_with_its_own_list_too { HoldsInBackgroundToo (tasks_of table.now) (O.ahead ordering.now) result }
        ensures live_runs_stay_within_the_full_schedule_up_to_its_first_miss { LiveStaysWithinFull (tasks_of table.now) (O.ahead ordering.now) }
    {
        let mut run = Run::new(table, ordering);
        for n in 0..table.hyperperiod() {
            // a run that has come to no miss has not ended
            let Ok((_, miss)) = run.tick() else {
                unreachable()
            };
            if let Some(task) = miss {
                return Verdict::Misses(Miss {
                    task,
                    instant: n + 1,
                });
            }
        }
        Verdict::Holds
    }
}
