ghost use Rattle.std.specs.Prelude.{◌≡◌, [], length, OnErr, OnOk};
ghost use Rattle.tables.specs.Hyperperiod.{hyperperiod_of, LeastCommonMultiple};
ghost use Rattle.tables.specs.Adding.{timely, well_ranked, add_answer, tasks_after_adding};
ghost use Rattle.tables.specs.Setting.{set_answer, tasks_after_setting, OnlyPromotion};
ghost use Rattle.tables.specs.Tables.{tasks_of, task_at};

use crate::euclid::least_multiple;
use crate::table::Table;
use crate::task::Task;
use bounded::list::Bounded;
use refusals::kinds::{AddRefusal, SetRefusal};

// What stands in the places behind the tasks.
const NOBODY: Task = Task {
    c: 0,
    d: 0,
    t: 0,
    p1: 0,
    p2: 0,
    s: 0,
};

fn times_within_bounds(x: &Task) -> bool
    ensures { result ≡ timely x.now }
{
    1 <= x.c && x.c <= x.d && x.d <= x.t && x.t <= 1_000_000
}

fn priorities_within_bounds(x: &Task) -> bool
    ensures { result ≡ well_ranked x.now }
{
    x.p1 <= 63 && x.p2 <= 63 && x.s <= x.d
}

impl Table {
    /// The empty table.
    #[tactic(auto, unfolding(crate::specs::Hyperperiod::hyperperiod_of))]
    pub fn new() -> Table
        ensures no_tasks { tasks_of result ≡ [] }
        ensures hyperperiod_is_one { hyperperiod_of (tasks_of result) ≡ 1 }
    {
        Table {
            rows: Bounded::new(NOBODY),
        }
    }

    /// How many tasks there are.
    pub fn len(&self) -> usize
        ensures { result ≡ length (tasks_of self.now) }
    {
        self.tasks().len()
    }

    /// The tasks, in the order of their numbers.
    pub fn tasks(&self) -> &[Task]
        ensures { result.now ≡ tasks_of self.now }
    {
        self.rows.as_slice()
    }

    /// The task of a number, or none where the table has no such number.
    pub fn get(&self, i: u32) -> Option<Task>
        ensures { result ≡ task_at (tasks_of self.now) i }
    {
        self.tasks().get(i as usize).copied()
    }

    /// The hyperperiod: the least common multiple of all periods, 1 for the empty table.
    pub fn hyperperiod(&self) -> u32
        ensures value { result ≡ hyperperiod_of (tasks_of self.now) }
        ensures least_common_multiple { LeastCommonMultiple (tasks_of self.now) result }
    {
        let mut h = 1u64;
        for x in self.tasks() {
            h = least_multiple(h, x.t as u64);
        }
        h as u32
    }

    /// Adds a task behind the others and answers its number. A refused adding leaves the table as it was.
    pub fn add(&mut self, task: Task) -> Result<u32, AddRefusal>
        ensures answer { result ≡ add_answer (tasks_of self.old) task }
        ensures tasks_after { tasks_of self.new ≡ tasks_after_adding (tasks_of self.old) task }
        ensures same_if_refused { OnErr result (self.new ≡ self.old) }
    {
        let n = self.len();
        let room = 32;
        if n >= room {
            return Err(AddRefusal::TableFull);
        }
        if !times_within_bounds(&task) {
            return Err(AddRefusal::TimesOutOfBounds);
        }
        if !priorities_within_bounds(&task) {
            return Err(AddRefusal::PrioritiesOutOfBounds);
        }
        let longest = 1_000_000_000;
        let h = least_multiple(self.hyperperiod() as u64, task.t as u64);
        if h > longest {
            return Err(AddRefusal::HyperperiodTooLong);
        }
        self.rows.push(task);
        Ok(n as u32)
    }

    /// Sets the promotion time S of one task, and nothing else. A refused setting leaves the table as it was.
    pub fn set_promotion(&mut self, i: u32, s: u32) -> Result<(), SetRefusal>
        ensures answer { result ≡ set_answer (tasks_of self.old) i s }
        ensures tasks_after { tasks_of self.new ≡ tasks_after_setting (tasks_of self.old) i s }
        ensures changes_that_promotion_alone { OnOk result (OnlyPromotion (tasks_of self.old) (tasks_of self.new) i s) }
        ensures same_if_refused { OnErr result (self.new ≡ self.old) }
    {
        let task = self.get(i).ok_or(SetRefusal::NoSuchTask)?;
        if s > task.d {
            return Err(SetRefusal::PromotionOutOfBounds);
        }
        self.rows.set(i as usize, Task { s, ..task });
        Ok(())
    }
}
