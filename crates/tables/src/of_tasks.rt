ghost use Rattle.tables.specs.Made.{MadeOf};

use crate::table::Table;
use crate::task::Task;
use refusals::kinds::AddRefusal;

/// The table of these tasks, added one after the other, or the first refusal of an adding.
impl TryFrom<&[Task]> for Table {
    type Error = AddRefusal;

    ghost try_from_gives = { λ tasks made. MadeOf tasks.now made };

    fn try_from(tasks: &[Task]) -> Result<Table, AddRefusal> {
        let mut table = Table::new();
        for x in tasks {
            table.add(*x)?;
        }
        Ok(table)
    }
}
