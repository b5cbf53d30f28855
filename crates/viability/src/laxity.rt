ghost use Rattle.std.specs.Prelude.{◌≡◌, ◌<◌, length, OnErr};
ghost use Rattle.tables.specs.Tables.{tasks_of};
ghost use Rattle.viability.specs.Laxity.{lax_time, laxity_answer, tasks_after_laxity};

use crate::task_set::TaskSet;
use refusals::kinds::LaxityRefusal;
use tables::table::Table;

// The promotion time of task i by laxity: its deadline less its response time within itself and those that are more urgent.
fn lax_time(table: &Table, i: usize) -> Option<u32>
    requires within { i < length (tasks_of table.now) }
    ensures { result ≡ lax_time (tasks_of table.now) i }
{
    let set = TaskSet::urgent(table, i);
    let r = set.response(i)?;
    Some(set.tasks[i].d - r)
}

/// Sets the promotion time S of every task as late as it can wait when promoted: D less its response time within itself and
/// the tasks of smaller P2, or of equal P2 and lower number. Where a task has no response time, nothing is set.
pub fn set_by_laxity(table: &mut Table) -> Result<(), LaxityRefusal>
    ensures answer { result ≡ laxity_answer (tasks_of table.old) }
    ensures tasks_after { tasks_of table.new ≡ tasks_after_laxity (tasks_of table.old) }
    ensures same_if_refused { OnErr result (table.new ≡ table.old) }
{
    // the times are set in a copy, so a refused call leaves the table as it was
    let mut after = *table;
    // by number, since a task's number is what a refusal names
    for i in 0..table.len() {
        let s = lax_time(table, i).ok_or(LaxityRefusal::NoResponse(i as u32))?;
        // S is at most D here, so no setting is refused
        let _ = after.set_promotion(i as u32, s);
    }
    *table = after;
    Ok(())
}
