ghost use Rattle.std.specs.Prelude.{◌≡◌, ◌≤◌, length};
ghost use Rattle.tables.specs.Tasks.{Each, Timed};

use tables::table::Table;
use tables::task::Task;

/// A set of tasks of a table: all tasks of the table, and for each number whether that task is in the set.
/// The flags behind those of the tasks mean nothing.
#[derive(Drop)]
pub(crate) struct TaskSet<'t> {
    pub(crate) tasks: &'t [Task],
    flags: [bool; 32],
    ghost wide: { length flags ≡ 32 },
    ghost few: { length tasks.now ≤ 32 },
    ghost timed: { Each Timed tasks.now },
}

impl<'t> TaskSet<'t> {
    ghost use Rattle.std.specs.Prelude.{◌<◌};
    ghost use Rattle.tables.specs.Tables.{tasks_of};
    ghost use Rattle.viability.specs.Viable.{is_in};
    ghost use Rattle.viability.specs.OwnList.{everyone, without};
    ghost use Rattle.viability.specs.Laxity.{urgent_set};
    ghost use Rattle.viability.specs.TaskSets.{members_of};

    // The tasks of a table that have a flag.
    fn of(table: &'t Table, flags: [bool; 32]) -> TaskSet<'t>
        ensures of_table { result.tasks.now ≡ tasks_of table.now }
        ensures flagged { result.flags ≡ flags }
    {
        TaskSet {
            tasks: table.tasks(),
            flags,
        }
    }

    // The set of all tasks.
    pub(crate) fn all(table: &'t Table) -> TaskSet<'t>
        ensures of_table { result.tasks.now ≡ tasks_of table.now }
        ensures members { members_of result ≡ everyone (tasks_of table.now) }
    {
        TaskSet::of(table, [true; 32])
    }

    // Task i and those that are at least as urgent when promoted: of a smaller P2, or of the same and a lower number.
    pub(crate) fn urgent(table: &'t Table, i: usize) -> TaskSet<'t>
        requires { i < length (tasks_of table.now) }
        ensures of_table { result.tasks.now ≡ tasks_of table.now }
        ensures members { members_of result ≡ urgent_set (tasks_of table.now) i }
    {
        let tasks = table.tasks();
        let own = tasks[i];
        let mut flags = [false; 32];
        for (j, x) in tasks.iter().enumerate() {
            flags[j] = (x.p2, j) <= (own.p2, i);
        }
        TaskSet::of(table, flags)
    }

    // Is task i in the set?
    pub(crate) fn has(&self, i: usize) -> bool
        requires { i < length self.now.tasks.now }
        ensures { result ≡ is_in (members_of self.now) i }
    {
        self.flags[i]
    }

    // Takes task i out of the set.
    pub(crate) fn remove(&mut self, i: usize)
        requires { i < length self.old.tasks.now }
        ensures same_tasks { self.new.tasks.now ≡ self.old.tasks.now }
        ensures members { members_of self.new ≡ without (members_of self.old) i }
    {
        self.flags[i] = false;
    }
}
