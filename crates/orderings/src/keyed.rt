ghost use Rattle.std.specs.Prelude.{◌≡◌, ℕ, ℤ};
ghost use Rattle.tables.specs.declared.task.Task.{Task};
ghost use Rattle.tables.specs.Tables.{tasks_of};
ghost use Rattle.orderings.specs.Keys.{key_of, by_key, by_number};
ghost use Rattle.orderings.specs.Keyed.{key_then_number};

use crate::keys::smaller_key;
use crate::ordering::Ordering;
use std::marker::PhantomData;
use tables::table::Table;
use tables::task::Task;

/// What jobs count with: a number of the task and the age. The smaller number is ahead.
pub trait Key {
    /// The meaning: what does a job of this task and age count with?
    ghost value: { Task → ℕ → ℤ };

    /// The number that a job counts with.
    fn of(task: &Task, age: u32) -> i64
        ensures { result ≡ value task.now age };
}

/// The ordering of a table's jobs by what they count with: the smaller number is ahead, then the lower task number.
#[derive(Clone, Copy)]
pub struct Keyed<K> {
    table: Table,
    counts_with: PhantomData<K>,
}

impl<K> Keyed<K> {
    /// The ordering of a table's jobs.
    pub fn new(table: &Table) -> Keyed<K>
        ensures { result.table ≡ table.now }
    {
        Keyed {
            table: *table,
            counts_with: PhantomData,
        }
    }
}

impl<K: Key> Keyed<K> {
    // What a job counts with, if there is such a task.
    fn key(&self, i: u32, a: u32) -> Option<i64>
        ensures { result ≡ key_of K.value (tasks_of self.now.table) i a }
    {
        self.table.get(i).map(|t| K::of(&t, a))
    }
}

impl<K: Key> Ordering for Keyed<K> {
    ghost ahead = { λ o. by_key (key_of K.value (tasks_of o.table)) by_number };

    ghost exclusive = { λ o. (key_then_number (key_of K.value (tasks_of o.table))).exclusive };

    ghost transitive = { λ o. (key_then_number (key_of K.value (tasks_of o.table))).transitive };

    ghost irreflexive = { λ o. (key_then_number (key_of K.value (tasks_of o.table))).irreflexive };

    fn is_ahead(&self, i: u32, a: u32, j: u32, b: u32) -> bool {
        i != j && smaller_key(self.key(i, a), i, self.key(j, b), j, i < j)
    }
}
