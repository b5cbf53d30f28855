ghost use Rattle.std.specs.Prelude.{◌≡◌, IfOk, OnErr, slice_get};
ghost use Rattle.tables.specs.Tables.{tasks_of};
ghost use Rattle.schedules.specs.Units.{AheadOfAllReady, LowestLate};
ghost use Rattle.schedules.specs.Runs.{fresh, unit_end, ticked, tick_answer, finished, finish_answer, age_answer, left_answer};
ghost use Rattle.schedules.specs.Views.{table_of_run, tasks_of_run, ordering_of_run, state_of_run};

use crate::run::Run;
use crate::slot::{Progress, Slot};
use crate::steps::fill;
use firsts::job::Job;
use orderings::ordering::Ordering;
use refusals::kinds::{FinishRefusal, QuestionRefusal, TickRefusal};
use tables::table::Table;

impl<'t, 'o, O: Ordering> Run<'t, 'o, O> {
    /// A new run: every age is 0, and every task has its budget left.
    pub fn new(table: &'t Table, ordering: &'o O) -> Run<'t, 'o, O>
        ensures state { state_of_run result ≡ fresh (tasks_of table.now) }
        ensures keeps_table { table_of_run result ≡ table.now }
        ensures keeps_ordering { ordering_of_run result ≡ ordering.now }
    {
        let mut slots = [Slot { age: 0, left: 0 }; 32];
        fill(table.tasks(), &mut slots);
        Run {
            table,
            ordering,
            progress: Progress {
                slots,
                ended: false,
            },
            ready: [Job { task: 0, age: 0 }; 32],
        }
    }

    /// One unit: the task that ran, and the task that missed (the lowest number of several).
    /// An ended run is refused, and stays as it is.
    pub fn tick(&mut self) -> Result<(Option<u32>, Option<u32>), TickRefusal>
        ensures answer { result ≡ tick_answer (tasks_of_run self.old) (O.ahead (ordering_of_run self.old)) (state_of_run self.old) }
        ensures after { state_of_run self.new ≡ ticked (tasks_of_run self.old) (O.ahead (ordering_of_run self.old)) (state_of_run self.old) }
        ensures serves_the_job_ahead_of_all_ready { IfOk result (λ x. AheadOfAllReady (O.ahead (ordering_of_run self.old)) (state_of_run self.old).slots x.0) }
        ensures names_the_lowest_late_task { IfOk result (λ x. LowestLate (tasks_of_run self.old) (unit_end (O.ahead (ordering_of_run self.old)) (state_of_run self.old).slots) x.1) }
        ensures same_if_refused { OnErr result (self.new ≡ self.old) }
        ensures keeps_table { self.new.table ≡ self.old.table }
        ensures keeps_ordering { self.new.ordering ≡ self.old.ordering }
    {
        if self.progress.ended {
            return Err(TickRefusal::RunEnded);
        }
        let ran = self.serve();
        let miss = self.advance();
        // a rule of the project: a pair of plain numbers, who ran and who missed
        Ok((ran, miss))
    }

    /// The job of a task is done before it has used its budget: it has no units left. A refused call leaves the run.
    pub fn finish_early(&mut self, i: u32) -> Result<(), FinishRefusal>
        ensures answer { result ≡ finish_answer (state_of_run self.old) i }
        ensures after { state_of_run self.new ≡ finished (state_of_run self.old) i }
        ensures same_if_refused { OnErr result (self.new ≡ self.old) }
        ensures keeps_table { self.new.table ≡ self.old.table }
        ensures keeps_ordering { self.new.ordering ≡ self.old.ordering }
    {
        if self.progress.ended {
            return Err(FinishRefusal::RunEnded);
        }
        let slot = self.slot(i).ok_or(FinishRefusal::NoSuchTask)?;
        if slot.left == 0 {
            return Err(FinishRefusal::NotReady);
        }
        self.progress.slots[i as usize].left = 0;
        Ok(())
    }

    // The slot of a task's present job, or none where the table has no such number.
    fn slot(&self, i: u32) -> Option<Slot>
        ensures { result ≡ slice_get (state_of_run self.now).slots i }
    {
        let n = self.table.len();
        self.progress.slots[..n].get(i as usize).copied()
    }

    /// The units since the release of a task's present job. It works on an ended run, too.
    pub fn age(&self, i: u32) -> Result<u32, QuestionRefusal>
        ensures { result ≡ age_answer (state_of_run self.now) i }
    {
        let slot = self.slot(i).ok_or(QuestionRefusal::NoSuchTask)?;
        Ok(slot.age)
    }

    /// The units that a task's present job may still use. It works on an ended run, too.
    pub fn left(&self, i: u32) -> Result<u32, QuestionRefusal>
        ensures { result ≡ left_answer (state_of_run self.now) i }
    {
        let slot = self.slot(i).ok_or(QuestionRefusal::NoSuchTask)?;
        Ok(slot.left)
    }
}
