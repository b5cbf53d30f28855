ghost use Rattle.std.specs.Prelude.{◌≡◌, ◌+◌, sum_by};
ghost use Rattle.tables.specs.Tables.{tasks_of};
ghost use Rattle.desk.specs.Rounds.{EndsEverySearch};

use tables::table::Table;

/// So many rounds are enough for every search on a table: one more than the sum of all deadlines D.
pub fn enough_rounds(table: &Table) -> u32
    ensures value { result ≡ sum_by (λ x. x.d) (tasks_of table.now) + 1 }
    ensures ends_every_search { EndsEverySearch (tasks_of table.now) result }
{
    let mut sum = 0;
    for task in table.tasks() {
        sum += task.d;
    }
    sum + 1
}
