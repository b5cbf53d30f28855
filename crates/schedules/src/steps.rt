ghost use Rattle.std.specs.Prelude.{◌≡◌, ℕ, ◌+◌, ◌^◌, ◌<◌, ◌≤◌, false, map, length, get_or, take, ◌==◌, slice_index_or};
ghost use Rattle.std.specs.Option.{option_map};
ghost use Rattle.tables.specs.Tasks.{nobody};
ghost use Rattle.schedules.specs.Units.{at, ready_from, picked, served, older, late, missed, released, renewed};
ghost use Rattle.schedules.specs.Runs.{advanced};
ghost use Rattle.schedules.specs.Views.{tasks_of_run, ordering_of_run, state_of_run};

use crate::run::Run;
use crate::slot::Slot;
use firsts::job::Job;
use firsts::order::first;
use orderings::ordering::Ordering;
use tables::task::Task;

// Gathers the ready jobs at the front of `ready`, in the order of their numbers, and tells how many there are.
// It tells a number and lends no slice: once a slice of `ready` is lent as a result, a proof has lost the length of `ready`.
fn gather(slots: &[Slot], ready: &mut [Job]) -> usize
    requires few { length slots.now ≤ 32 }
    requires room { length slots.now ≤ length ready.old }
    ensures jobs { take result ready.new ≡ ready_from 0 slots.now }
    ensures bound { result ≤ length slots.now }
{
    let mut n = 0;
    for (k, slot) in slots.iter().enumerate() {
        // written in any case, and counted if ready: the processor then has nothing to guess
        ready[n] = Job {
            task: k as u32,
            age: slot.age,
        };
        n += usize::from(slot.left > 0);
    }
    n
}

// Has the job come to its deadline with units left?
fn is_late(task: &Task, slot: &Slot) -> bool
    ensures { result ≡ late task.now slot.now }
{
    slot.age == task.d && slot.left > 0
}

// What the ages of a unit bring.
#[derive(Clone, Copy)]
struct Grown {
    // the lowest task that missed
    miss: Option<u32>,
    // whether some task has come to its period
    due: bool,
}

// Every age rises by one.
fn grow(tasks: &[Task], slots: &mut [Slot]) -> Grown
    requires few { length slots.old ≤ 32 }
    requires long { length slots.old ≤ length tasks.now }
    requires young { (k : ℕ) → k < length slots.old → (at slots.old k).age + 1 < 2 ^ 32 }
    ensures after { slots.new ≡ map older slots.old }
    ensures miss { result.miss ≡ missed tasks.now (map older slots.old) }
    ensures due { result.due ≡ false → (k : ℕ) → k < length slots.old → ((at slots.new k).age == (get_or tasks.now k nobody).t) ≡ false }
{
    let mut miss = None;
    let mut due = false;
    // no zip with the tasks: what a zip lends can be written, and a proof does not learn what was
    for (k, slot) in slots.iter_mut().enumerate() {
        let task = &tasks[k];
        slot.age += 1;
        if is_late(task, slot) {
            miss = miss.or(Some(k as u32));
        }
        due |= slot.age == task.t;
    }
    Grown { miss, due }
}

// The slot of a job of this task at its release.
fn fresh_slot(task: &Task) -> Slot
    ensures { result ≡ released task.now }
{
    Slot {
        age: 0,
        left: task.c,
    }
}

// Each task of age T gets its next job, of age 0 and with its whole budget.
fn release(tasks: &[Task], slots: &mut [Slot])
    requires { length slots.old ≤ length tasks.now }
    ensures { slots.new ≡ renewed tasks.now slots.old }
{
    // no zip, as in `grow`
    for (k, slot) in slots.iter_mut().enumerate() {
        let task = &tasks[k];
        if slot.age == task.t {
            *slot = fresh_slot(task);
        }
    }
}

impl<'t, 'o, O: Ordering> Run<'t, 'o, O> {
    // The first half of a unit: the ready job that is ahead of all other ready ones loses one unit.
    pub(crate) fn serve(&mut self) -> Option<u32>
        ensures ran { result ≡ option_map (λ j. j.task) (picked (O.ahead (ordering_of_run self.old)) (state_of_run self.old).slots) }
        ensures slots { (state_of_run self.new).slots ≡ served (O.ahead (ordering_of_run self.old)) (state_of_run self.old).slots }
        ensures goes_on { self.new.progress.ended ≡ self.old.progress.ended }
        ensures keeps_table { self.new.table ≡ self.old.table }
        ensures keeps_ordering { self.new.ordering ≡ self.old.ordering }
    {
        let n = self.table.len();
        let count = gather(&self.progress.slots[..n], &mut self.ready);
        let task = first(&self.ready[..count], self.ordering)?.task;
        self.progress.slots[task as usize].left -= 1;
        Some(task)
    }

    // The second half of a unit: ages rise, then a miss is told or jobs are released.
    pub(crate) fn advance(&mut self) -> Option<u32>
        requires { self.old.progress.ended ≡ false }
        ensures miss { result ≡ missed (tasks_of_run self.old) (map older (state_of_run self.old).slots) }
        ensures state { state_of_run self.new ≡ advanced (tasks_of_run self.old) (state_of_run self.old).slots }
        ensures keeps_table { self.new.table ≡ self.old.table }
        ensures keeps_ordering { self.new.ordering ≡ self.old.ordering }
    {
        let tasks = self.table.tasks();
        let progress = &mut self.progress;
        let slots = &mut progress.slots[..tasks.len()];
        let grown = grow(tasks, slots);
        if grown.due && grown.miss.is_none() {
            release(tasks, slots);
        }
        progress.ended = grown.miss.is_some();
        grown.miss
    }
}

// Each task's first job in the slot of its number.
pub(crate) fn fill(tasks: &[Task], slots: &mut [Slot])
    requires { length tasks.now ≤ length slots.old }
    ensures { (k : ℕ) → k < length tasks.now → at slots.new k ≡ released (slice_index_or tasks.now k nobody) }
{
    // no zip, as in `grow`
    for (k, task) in tasks.iter().enumerate() {
        slots[k] = fresh_slot(task);
    }
}
