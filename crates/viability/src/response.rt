ghost use Rattle.std.specs.Prelude.{◌≡◌, ℕ, ◌<◌, ◌≤◌, length};
ghost use Rattle.bounded.specs.Lists.{items_of};
ghost use Rattle.tables.specs.Tasks.{Each, Timed};
ghost use Rattle.viability.specs.Viable.{asked, asked_together, asked_by_others, response};
ghost use Rattle.viability.specs.TaskSets.{members_of};

use crate::task_set::TaskSet;
use bounded::list::Bounded;
use tables::task::Task;

// What stands in the places behind the tasks that are gathered. It means nothing, so no crate shows its own.
const NOBODY: Task = Task {
    c: 0,
    d: 0,
    t: 0,
    p1: 0,
    p2: 0,
    s: 0,
};

// What a task may ask for in t units: its budget C for each of its jobs that is released in them.
#[tactic(auto, using(crate::proofs::Rounded::ceil_is))]
fn asked(task: &Task, t: u32) -> u64
    requires timed { Timed task.now }
    requires time { t ≤ 1000000 }
    ensures value { result ≡ asked task.now t }
    ensures bound { result ≤ 2000000000000 }
{
    task.c as u64 * t.div_ceil(task.t) as u64
}

// What tasks may ask for together in t units.
fn asked_together(tasks: &[Task], t: u32) -> u64
    requires few { length tasks.now ≤ 32 }
    requires timed { Each Timed tasks.now }
    requires time { t ≤ 1000000 }
    ensures value { result ≡ asked_together tasks.now t }
    ensures bound { result ≤ 64000000000000 }
{
    let mut sum = 0;
    for x in tasks {
        sum += asked(x, t);
    }
    sum
}

impl TaskSet<'_> {
    // The tasks of the set other than i. They are gathered once, so that a search for a time asks no flag again.
    fn others(&self, i: usize) -> Bounded<Task, 32>
        ensures timed { Each Timed (items_of result) }
        ensures ask_for_what_others_do { (t : ℕ) → asked_together (items_of result) t ≡ asked_by_others self.now.tasks.now (members_of self.now) i t }
    {
        let mut found = Bounded::new(NOBODY);
        for (j, x) in self.tasks.iter().enumerate() {
            if self.has(j) && j != i {
                found.push(*x);
            }
        }
        found
    }

    // The response time of task i behind all other tasks of the set: the smallest t up to its deadline D in which one
    // budget of its own and what the others may ask for can be worked off. None where there is no such t.
    #[tactic(auto, using(crate::proofs::Searched::search_found, crate::proofs::Searched::search_passed))]
    pub(crate) fn response(&self, i: usize) -> Option<u32>
        requires within { i < length self.now.tasks.now }
        ensures { result ≡ response self.now.tasks.now (members_of self.now) i }
    {
        let own = self.tasks[i];
        let others = self.others(i);
        let mut t = 1;
        // a rule of the project: the smallest t is found by a loop that breaks with it, and the others are added up in another
        loop {
            if t > own.d {
                break None;
            }
            let load = own.c as u64 + asked_together(others.as_slice(), t);
            if load <= t as u64 {
                break Some(t);
            }
            t += 1;
        }
    }
}
