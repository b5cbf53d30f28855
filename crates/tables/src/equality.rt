ghost use Rattle.std.specs.Prelude.{◌≡◌, Decides};
ghost use Rattle.std.specs.Cmp.{on_equiv, on_per};
ghost use Rattle.std.specs.Cmp.Lexicographic.{lists_equiv, lists_per};
ghost use Rattle.std.specs.Cmp.Rules.{comparing};
ghost use Rattle.std.proofs.Common.{rules};
ghost use Rattle.tables.specs.Equality.{same_tasks};
ghost use Rattle.tables.specs.Tables.{tasks_of};

use crate::table::Table;

// No derive: it would compare the memory behind the tasks, which means nothing.
/// Two tables are equal when their lists of tasks are.
impl PartialEq for Table {
    ghost eq = { same_tasks };

    ghost laws = { on_per tasks_of (lists_per (Prim.search (comparing, rules))) };

    fn eq(&self, other: &Table) -> bool
        ensures value { result ≡ same_tasks self.now other.now }
        ensures decides { Decides result (tasks_of self.now ≡ tasks_of other.now) }
    {
        self.tasks() == other.tasks()
    }
}

impl Eq for Table {
    ghost laws = { on_equiv tasks_of (lists_equiv (Prim.search (comparing, rules))) };
}
