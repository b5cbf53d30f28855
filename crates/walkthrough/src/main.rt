#![tactic(auto)]

use answers::input::{ROOM, fill};
use orderings::deadline::Deadline;
use orderings::fixed::Fixed;
use orderings::two_phase::TwoPhase;
use refusals::kinds::{Place, ReadRefusal, Refusal};
use schedules::run::Run;
use schedules::verdict::{Miss, Verdict};
use std::io;
use std::ops::ControlFlow;
use table_text::reading::read;
use tables::table::Table;
use tables::task::Task;

// So many units are told at the most.
const TOLD: u32 = 48;

fn tell_refusal(rt: &HostRuntime, e: ReadRefusal) -> io::Result<()> {
    let refusal = Refusal::from(e);
    let number = refusal.number();
    match refusal.place() {
        Some(Place { row, field }) => println!(rt;
            "The text is refused with number {number}, at record {row}, field {field}."
        ),
        None => println!(rt; "The text is refused with number {number}."),
    }
}

fn tell_task(rt: &HostRuntime, i: usize, x: Task) -> io::Result<()> {
    let Task { c, d, t, p1, p2, s } = x;
    print!(rt;
        "Task {i}: a job is released every {t} units; it may use {c} and has to be done after {d}. "
    )?;
    println!(rt; "Its priority number is {p1}, and {p2} from age {s} on.")
}

fn tell_table(rt: &HostRuntime, table: &Table) -> io::Result<()> {
    println!(rt; "The table has {} tasks.", table.len())?;
    for (i, x) in table.tasks().iter().enumerate() {
        tell_task(rt, i, *x)?;
    }
    println!(rt; "The hyperperiod is {}.", table.hyperperiod())
}

fn tell_unit(rt: &HostRuntime, n: u32, ran: Option<u32>) -> io::Result<()> {
    match ran {
        Some(i) => println!(rt; "Unit {n}: task {i} runs."),
        None => println!(rt; "Unit {n}: no job is ready, the processor is idle."),
    }
}

fn tell_verdict(rt: &HostRuntime, ordering: &str, verdict: Verdict) -> io::Result<()> {
    match verdict {
        Verdict::Holds => println!(rt;
            "Verdict under {ordering}: holds. No tick of the endless full schedule misses a deadline."
        ),
        Verdict::Misses(Miss { task, instant }) => println!(rt;
            "Verdict under {ordering}: miss. The first deadline missed is that of task {task} at instant {instant}."
        ),
    }
}

// The same table under three orderings.
fn tell_verdicts(rt: &HostRuntime, table: &Table) -> io::Result<()> {
    tell_verdict(rt, "two-phase", Verdict::of(table, &TwoPhase::new(table)))?;
    tell_verdict(rt, "fixed", Verdict::of(table, &Fixed::new(table)))?;
    tell_verdict(rt, "deadline", Verdict::of(table, &Deadline::new(table)))
}

// The full schedule of a table while it is told.
#[derive(Drop)]
struct Telling<'a> {
    rt: &'a HostRuntime,
    table: &'a Table,
    run: Run<'a, 'a, TwoPhase>,
}

impl<'a> Telling<'a> {
    fn new(rt: &'a HostRuntime, table: &'a Table, ordering: &'a TwoPhase) -> Telling<'a> {
        Telling {
            rt,
            table,
            run: Run::new(table, ordering),
        }
    }

    // What is new about a task's job at an instant: its release at age 0, and its promotion at age S if units are left.
    fn tell_job(&self, instant: u32, i: u32, x: Task) -> io::Result<()> {
        if let (Ok(age), Ok(units)) = (self.run.age(i), self.run.left(i)) {
            if age == 0 {
                println!(self.rt; "Instant {instant}: task {i} is released, with {units} units.")?;
            }
            if age == x.s && units > 0 {
                println!(self.rt;
                    "Instant {instant}: task {i} is promoted, its priority number is now {}.",
                    x.p2
                )?;
            }
        }
        Ok(())
    }

    fn tell_jobs(&self, instant: u32) -> io::Result<()> {
        for (i, x) in self.table.tasks().iter().enumerate() {
            self.tell_job(instant, i as u32, *x)?;
        }
        Ok(())
    }

    // One tick of the run, told. It breaks off where the run came to a miss.
    fn tell_tick(&mut self, n: u32) -> io::Result<ControlFlow<()>> {
        let instant = n.saturating_add(1);
        let Ok((ran, missed)) = self.run.tick() else {
            return Ok(ControlFlow::Break(()));
        };
        tell_unit(self.rt, n, ran)?;
        if let Some(i) = missed {
            println!(self.rt;
                "Instant {instant}: task {i} misses its deadline, and the run ends."
            )?;
            return Ok(ControlFlow::Break(()));
        }
        self.tell_jobs(instant)?;
        Ok(ControlFlow::Continue(()))
    }
}

fn tell_run(rt: &HostRuntime, table: &Table) -> io::Result<()> {
    let ordering = TwoPhase::new(table);
    let mut telling = Telling::new(rt, table, &ordering);
    telling.tell_jobs(0)?;
    for n in 0..table.hyperperiod().min(TOLD) {
        if let ControlFlow::Break(()) = telling.tell_tick(n)? {
            break;
        }
    }
    if TOLD < table.hyperperiod() {
        println!(rt; "At most {TOLD} units are told.")?;
    }
    tell_verdicts(rt, table)
}

fn main(rt: HostRuntime) -> io::Result<()> {
    // fixed memory, so that nothing fails for want of it
    let mut text = [0u8; ROOM];
    let len = fill(&mut rt.stdin(), &mut text)?;
    let mut table = Table::new();
    println!(rt; "{len} bytes of table text are read.")?;
    match read(&text[..len], &mut table) {
        Err(e) => tell_refusal(&rt, e),
        Ok(_) => {
            tell_table(&rt, &table)?;
            tell_run(&rt, &table)
        }
    }
}
