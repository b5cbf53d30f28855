ghost use Rattle.std.specs.Prelude.{◌≡◌};
ghost use Rattle.bounded.specs.Lists.{items_of};
ghost use Rattle.tables.specs.Tables.{tasks_of};
ghost use Rattle.orderings.specs.BackgroundList.{numbers_of};
ghost use Rattle.viability.specs.OwnList.{candidates, next_taken, own_list};
ghost use Rattle.viability.specs.TaskSets.{members_of};

use crate::candidate::{Candidate, LongestFirst};
use crate::task_set::TaskSet;
use bounded::list::Bounded;
use firsts::order::first;
use orderings::background_list::BackgroundList;
use tables::table::Table;

impl TaskSet<'_> {
    // The tasks of the set that are viable within it, in the order of their numbers.
    #[tactic(auto, using(crate::proofs::Gathered::one_longer, crate::proofs::Gathered::found_more, crate::proofs::Gathered::found_same))]
    fn gather(&self) -> Bounded<Candidate, 32>
        ensures { items_of result ≡ candidates self.now.tasks.now (members_of self.now) }
    {
        let mut found = Bounded::new(Candidate {
            deadline: 0,
            task: 0,
        });
        for (k, x) in self.tasks.iter().enumerate() {
            if self.has(k) && self.response(k).is_some() {
                found.push(Candidate {
                    deadline: x.d,
                    task: k as u32,
                });
            }
        }
        found
    }

    // The one that is taken next from the set: of the tasks that are viable within it the one with the longest deadline,
    // and of equal deadlines the greater number. None where no task is viable.
    fn next(&self) -> Option<Candidate>
        ensures { result ≡ next_taken self.now.tasks.now (members_of self.now) }
    {
        let found = self.gather();
        first(found.as_slice(), &LongestFirst).copied()
    }
}

/// The background list of a table: the tasks that can be served behind all others. A task is viable within a set if it
/// meets its deadline behind all other tasks of the set. From the set of all tasks one after the other is taken that is
/// viable within what is left of the set, while there is one: of several the one with the longest deadline, and of equal
/// deadlines the greater number.
pub fn own_background_list(table: &Table) -> BackgroundList
    ensures value { numbers_of result ≡ own_list (tasks_of table.now) }
{
    let mut left = TaskSet::all(table);
    let mut list = BackgroundList::new();
    // a counted loop: that a `while let` ends would need a measure of its own
    for _ in 0..table.len() {
        let Some(x) = left.next() else { break };
        // the list has no member of the set yet, so it always takes this one
        list.take(x.task);
        left.remove(x.task as usize);
    }
    list
}
