ghost use Rattle.std.specs.Prelude.{◌≡◌, ◌-◌, ◌/◌, ◌%◌, ◌<◌, ◌&&◌, IfOk, Some, None, Ok, OnOk, ◌==◌, nat_le, nat_lt};
ghost use Rattle.tables.specs.Tables.{tasks_of};
ghost use Rattle.schedules.specs.Runs.{fresh, finished, age_answer, left_answer};
ghost use Rattle.schedules.specs.Views.{state_of_run};
ghost use Rattle.side_by_side.specs.Ticks.{answer_of_tick, state_after_tick};

use orderings::two_phase::TwoPhase;
use refusals::kinds::{QuestionRefusal, TickRefusal};
use schedules::run::Run;
use schedules::slot::Slot;
use tables::table::Table;
use tables::task::Task;

/// The same thing in the full schedule and in the live run.
#[derive(Clone, Copy)]
pub struct Sides<T> {
    pub full: T,
    pub live: T,
}

/// What one unit brought: the tasks that ran, and the tasks that missed at its end.
#[derive(Clone, Copy)]
pub struct Outcome {
    pub ran: Sides<Option<u32>>,
    pub missed: Sides<Option<u32>>,
}

/// A job that finished early in the live run.
#[derive(Clone, Copy)]
pub struct EarlyFinish {
    pub task: u32,
    /// The units of its budget that it did not use.
    pub unused: u32,
}

/// The two runs, always at the same instant.
#[derive(Drop)]
pub struct Runs<'t, 'o> {
    full: Run<'t, 'o, TwoPhase>,
    live: Run<'t, 'o, TwoPhase>,
}

/// Whether the ages are equal, and no more units are left in the live run.
pub(crate) fn agree(job: Sides<Slot>) -> bool
    ensures { result ≡ (job.full.age == job.live.age && nat_le job.live.left job.full.left) }
{
    job.full.age == job.live.age && job.live.left <= job.full.left
}

// Whether the present job of a task is its first, third, fifth and so on; a job is released every T units.
fn is_odd_job(instant: u32, x: Task) -> bool
    ensures { 0 < x.t → result ≡ ((instant / x.t) % 2 == 0) }
{
    match instant.checked_div(x.t) {
        Some(jobs_before) => jobs_before % 2 == 0,
        // no period is 0
        None => false,
    }
}

// Whether a job has run for one unit, and has more left.
fn has_run_once(left: u32, x: Task) -> bool
    ensures { result ≡ (nat_lt 0 left && (nat_lt left x.c && x.c - left == 1)) }
{
    0 < left && left < x.c && x.c - left == 1
}

fn standing_in(run: &Run<TwoPhase>, i: u32) -> Result<Slot, QuestionRefusal>
    ensures age { IfOk result (λ s. age_answer (state_of_run run.now) i ≡ Ok s.age) }
    ensures left { IfOk result (λ s. left_answer (state_of_run run.now) i ≡ Ok s.left) }
{
    Ok(Slot {
        age: run.age(i)?,
        left: run.left(i)?,
    })
}

impl<'t, 'o> Runs<'t, 'o> {
    /// Two new runs of a table.
    pub(crate) fn new(table: &'t Table, ordering: &'o TwoPhase) -> Runs<'t, 'o>
        ensures full { state_of_run result.full ≡ fresh (tasks_of table.now) }
        ensures live { state_of_run result.live ≡ fresh (tasks_of table.now) }
    {
        Runs {
            full: Run::new(table, ordering),
            live: Run::new(table, ordering),
        }
    }

    /// One unit in both runs.
    pub(crate) fn tick(&mut self) -> Result<Outcome, TickRefusal>
        ensures full_answer { IfOk result (λ o. answer_of_tick self.old.full ≡ Ok (o.ran.full, o.missed.full)) }
        ensures live_answer { IfOk result (λ o. answer_of_tick self.old.live ≡ Ok (o.ran.live, o.missed.live)) }
        ensures full_after { state_of_run self.new.full ≡ state_after_tick self.old.full }
        ensures live_after { OnOk result (state_of_run self.new.live ≡ state_after_tick self.old.live) }
    {
        let (full_ran, full_missed) = self.full.tick()?;
        let (live_ran, live_missed) = self.live.tick()?;
        Ok(Outcome {
            ran: Sides {
                full: full_ran,
                live: live_ran,
            },
            missed: Sides {
                full: full_missed,
                live: live_missed,
            },
        })
    }

    /// The rule of the live run: every other job of each task, from the first on, is done once it has run for one unit.
    /// Only the job that ran in the unit before the instant can have come to this.
    pub(crate) fn finish_by_rule(
        &mut self,
        table: &Table,
        instant: u32,
        ran: Option<u32>,
    ) -> Option<EarlyFinish>
        ensures keeps_full { self.new.full ≡ self.old.full }
        ensures live { elim result [
          | None ↦ self.new.live ≡ self.old.live
          | Some e ↦ state_of_run self.new.live ≡ finished (state_of_run self.old.live) e.task
        ] }
        ensures of_what_ran { elim result [ None ↦ Unit {0} | Some e ↦ ran ≡ Some e.task ] }
        ensures unused { elim result [ None ↦ Unit {0} | Some e ↦ left_answer (state_of_run self.old.live) e.task ≡ Ok e.unused ] }
    {
        let task = ran?;
        let x = table.get(task)?;
        let unused = self.live.left(task).ok()?;
        if is_odd_job(instant, x) && has_run_once(unused, x) {
            self.live.finish_early(task).ok()?;
            return Some(EarlyFinish { task, unused });
        }
        None
    }

    /// The present job of a task in both runs.
    pub(crate) fn standing(&self, i: u32) -> Result<Sides<Slot>, QuestionRefusal>
        ensures full_age { IfOk result (λ j. age_answer (state_of_run self.now.full) i ≡ Ok j.full.age) }
        ensures full_left { IfOk result (λ j. left_answer (state_of_run self.now.full) i ≡ Ok j.full.left) }
        ensures live_age { IfOk result (λ j. age_answer (state_of_run self.now.live) i ≡ Ok j.live.age) }
        ensures live_left { IfOk result (λ j. left_answer (state_of_run self.now.live) i ≡ Ok j.live.left) }
    {
        Ok(Sides {
            full: standing_in(&self.full, i)?,
            live: standing_in(&self.live, i)?,
        })
    }
}
