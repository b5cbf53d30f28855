ghost use Rattle.std.specs.Prelude.{◌≡◌, ◌+◌, length, OnErr, OnOk};
ghost use Rattle.tables.specs.Tables.{tasks_of};
ghost use Rattle.table_text.specs.Cursors.{read_to, task_to, progress_to};
ghost use Rattle.table_text.specs.Records.{ended_field_at, record_at, next_record, progress};

use crate::cursor::Cursor;
use refusals::kinds::RecordFault;
use tables::table::Table;
use tables::task::Task;

impl Cursor<'_> {
    // Reads a field, number k of the record, with what follows it.
    fn read_ended_field(&mut self, row: u32, k: u32) -> Result<u32, RecordFault>
        ensures value { read_to self.new.at result ≡ ended_field_at self.old.text.now self.old.at row k }
        ensures same_text { self.new.text.now ≡ self.old.text.now }
    {
        let value = self.read_field(row, k)?;
        if !self.pass_separator(k) {
            return Err(RecordFault::Shape(row));
        }
        Ok(value)
    }

    // Reads a record, of the number `row`.
    fn read_record(&mut self, row: u32) -> Result<Task, RecordFault>
        ensures value { task_to self.new.at result ≡ record_at self.old.text.now self.old.at row }
        ensures same_text { self.new.text.now ≡ self.old.text.now }
    {
        let c = self.read_ended_field(row, 1)?;
        let d = self.read_ended_field(row, 2)?;
        let t = self.read_ended_field(row, 3)?;
        let p1 = self.read_ended_field(row, 4)?;
        let p2 = self.read_ended_field(row, 5)?;
        let s = self.read_ended_field(row, 6)?;
        Ok(Task { c, d, t, p1, p2, s })
    }

    // Reads a record and adds its task to the table.
    pub(crate) fn add_record(&mut self, table: &mut Table) -> Result<(), RecordFault>
        ensures value { progress_to (progress (tasks_of table.new) self.new.at) result ≡ next_record self.old.text.now (progress (tasks_of table.old) self.old.at) }
        ensures same_text { self.new.text.now ≡ self.old.text.now }
        ensures one_more { OnOk result (length (tasks_of table.new) ≡ length (tasks_of table.old) + 1) }
        ensures same_if_refused { OnErr result (table.new ≡ table.old) }
    {
        let row = table.len() as u32 + 2;
        let task = self.read_record(row)?;
        table.add(task).map_err(|e| RecordFault::Adding(row, e))?;
        Ok(())
    }
}
