#![tactic(auto)]

mod runs;

use crate::runs::{EarlyFinish, Runs, Sides, agree};
use answers::printing::printed;
use orderings::two_phase::TwoPhase;
use schedules::slot::Slot;
use schedules::verdict::{Miss, Verdict};
use std::io;
use std::io::{Read, Write};
use std::ops::ControlFlow;
use table_text::reading::{ENOUGH, read};
use tables::table::Table;
use tables::task::Task;

// So many units are told at the most.
const TOLD: u32 = 48;

// The ending of a noun of which there are so many.
fn plural(n: u32) -> &'static str {
    if n == 1 { "" } else { "s" }
}

fn tell_task(rt: &HostRuntime, i: usize, x: Task) -> io::Result<()> {
    let Task { c, d, t, p1, p2, s } = x;
    print!(rt; "Task {i}: period {t}, budget {c}, deadline {d}, priority number {p1}, ")?;
    println!(rt; "and {p2} from age {s} on.")
}

fn tell_table(rt: &HostRuntime, table: &Table) -> io::Result<()> {
    for (i, x) in table.tasks().iter().enumerate() {
        tell_task(rt, i, *x)?;
    }
    println!(rt; "The hyperperiod is {}.", table.hyperperiod())
}

fn tell_rule(rt: &HostRuntime) -> io::Result<()> {
    println!(rt)?;
    println!(rt; "Two runs of this table go side by side under the two-phase ordering.")?;
    println!(rt; "In the full schedule every job uses its whole budget.")?;
    println!(rt;
        "In the live run every other job of each task, from the first on, is done once it has run for one unit."
    )?;
    println!(rt)
}

fn tell_how_to_read(rt: &HostRuntime) -> io::Result<()> {
    println!(rt;
        "Each line tells a unit and the instant at its end: which task ran in the full schedule and in the live run, and"
    )?;
    println!(rt;
        "then of each task its age, the same in both, and its units left in the full schedule and in the live run."
    )?;
    println!(rt)
}

fn tell_task_numbers(rt: &HostRuntime, table: &Table) -> io::Result<()> {
    print!(rt; "     | runs in | runs in |         |")?;
    for i in 0..table.len() {
        print!(rt; " task {i:<10} |")?;
    }
    println!(rt)
}

fn tell_column_names(rt: &HostRuntime, table: &Table) -> io::Result<()> {
    print!(rt; "unit | full    | live    | instant |")?;
    for _ in 0..table.len() {
        print!(rt; " age  full  live |")?;
    }
    println!(rt)
}

fn tell_running(rt: &HostRuntime, ran: Option<u32>) -> io::Result<()> {
    match ran {
        Some(i) => print!(rt; " task {i:<2} |"),
        None => print!(rt; " idle    |"),
    }
}

// The first columns of a line: a unit, and the instant at its end.
fn tell_unit(rt: &HostRuntime, n: u32, ran: Sides<Option<u32>>) -> io::Result<()> {
    let instant = n.saturating_add(1);
    print!(rt; "{n:>4} |")?;
    tell_running(rt, ran.full)?;
    tell_running(rt, ran.live)?;
    print!(rt; " {instant:>7} |")
}

fn tell_standing(rt: &HostRuntime, job: Sides<Slot>) -> io::Result<()> {
    let Sides { full, live } = job;
    print!(rt; " {:>3}  {:>4}  {:>4} |", full.age, full.left, live.left)
}

// The end of a line.
fn tell_finish(rt: &HostRuntime, finish: Option<EarlyFinish>) -> io::Result<()> {
    match finish {
        Some(EarlyFinish { task, unused }) => {
            let s = plural(unused);
            println!(rt; " task {task} finishes early in the live run, {unused} unit{s} unused")
        }
        None => println!(rt),
    }
}

// That a task does not agree. Up to the full schedule's first miss no task comes to this, which the contract of
// `Verdict::of` promises; the program does not rely on it.
fn tell_fault(rt: &HostRuntime, instant: u32, i: u32, job: Sides<Slot>) -> io::Result<()> {
    let Sides { full, live } = job;
    print!(rt; "Instant {instant}: task {i} does not agree: ")?;
    print!(rt;
        "age {} and units left {} in the full schedule, ",
        full.age, full.left
    )?;
    println!(rt;
        "age {} and units left {} in the live run.",
        live.age, live.left
    )
}

// What the comparison has found so far.
#[derive(Clone, Copy, Default)]
struct Findings {
    // how many instants were compared
    instants: u32,
    // how often a task did not agree
    faults: u32,
}

// The two runs of a table while they are told, and what comparing them has found.
#[derive(Drop)]
struct Telling<'a> {
    rt: &'a HostRuntime,
    table: &'a Table,
    runs: Runs<'a, 'a>,
    found: Findings,
}

impl<'a> Telling<'a> {
    fn new(rt: &'a HostRuntime, table: &'a Table, ordering: &'a TwoPhase) -> Telling<'a> {
        Telling {
            rt,
            table,
            runs: Runs::new(table, ordering),
            found: Findings::default(),
        }
    }

    // The columns of all tasks.
    fn tell_standings(&self) -> io::Result<()> {
        // the runs are asked by task number
        for i in 0..self.table.len() {
            if let Ok(job) = self.runs.standing(i as u32) {
                tell_standing(self.rt, job)?;
            }
        }
        Ok(())
    }

    // Compares a task at an instant. Where it does not agree, that is told and counted.
    fn compare_task(&mut self, instant: u32, i: u32) -> io::Result<()> {
        match self.runs.standing(i) {
            Ok(job) if agree(job) => return Ok(()),
            Ok(job) => tell_fault(self.rt, instant, i, job)?,
            // every task of the table has a job in both runs
            Err(_) => println!(self.rt; "Instant {instant}: task {i} cannot be compared.")?,
        }
        self.count_fault();
        Ok(())
    }

    fn count_fault(&mut self) {
        self.found.faults = self.found.faults.saturating_add(1);
    }

    // Compares all tasks at an instant.
    fn compare(&mut self, instant: u32) -> io::Result<()> {
        self.found.instants = self.found.instants.saturating_add(1);
        // the runs are asked by task number
        for i in 0..self.table.len() {
            self.compare_task(instant, i as u32)?;
        }
        Ok(())
    }

    // The line of instant 0, which ends no unit.
    fn tell_start(&mut self) -> io::Result<()> {
        print!(self.rt; "     |         |         |       0 |")?;
        self.tell_standings()?;
        println!(self.rt)?;
        self.compare(0)
    }

    // One unit of both runs, told. It breaks off where one of them came to a miss.
    fn tell_tick(&mut self, n: u32) -> io::Result<ControlFlow<()>> {
        let instant = n.saturating_add(1);
        let Ok(outcome) = self.runs.tick() else {
            return Ok(ControlFlow::Break(()));
        };
        tell_unit(self.rt, n, outcome.ran)?;
        match (outcome.missed.full, outcome.missed.live) {
            (Some(i), live_missed) => {
                tell_miss(self.rt, i, live_missed)?;
                Ok(ControlFlow::Break(()))
            }
            (None, Some(i)) => {
                // the contract of `Verdict::of` rules this out, too
                self.count_fault();
                println!(self.rt;
                    " task {i} misses its deadline in the live run, and no task does in the full schedule"
                )?;
                Ok(ControlFlow::Break(()))
            }
            (None, None) => {
                let finish = self
                    .runs
                    .finish_by_rule(self.table, instant, outcome.ran.live);
                self.tell_standings()?;
                tell_finish(self.rt, finish)?;
                self.compare(instant)?;
                Ok(ControlFlow::Continue(()))
            }
        }
    }
}

// The end of a line at which the full schedule misses.
fn tell_miss(rt: &HostRuntime, i: u32, live_missed: Option<u32>) -> io::Result<()> {
    print!(rt; " task {i} misses its deadline in the full schedule, and ")?;
    match live_missed {
        Some(j) => println!(rt; "task {j} in the live run"),
        None => println!(rt; "no task does in the live run"),
    }
}

fn tell_runs(rt: &HostRuntime, table: &Table) -> io::Result<Findings> {
    let ordering = TwoPhase::new(table);
    let mut telling = Telling::new(rt, table, &ordering);
    telling.tell_start()?;
    for n in 0..table.hyperperiod().min(TOLD) {
        if let ControlFlow::Break(()) = telling.tell_tick(n)? {
            break;
        }
    }
    Ok(telling.found)
}

fn tell_findings(rt: &HostRuntime, found: Findings) -> io::Result<()> {
    let Findings { instants, faults } = found;
    let s = plural(instants);
    if faults == 0 {
        println!(rt;
            "At {instants} instant{s} all ages agreed, and no task had more units left in the live run."
        )
    } else {
        println!(rt; "The runs did not always agree. Lines above that say so: {faults}.")
    }
}

fn tell_verdict(rt: &HostRuntime, table: &Table) -> io::Result<()> {
    match Verdict::of(table, &TwoPhase::new(table)) {
        Verdict::Holds => println!(rt;
            "Verdict under two-phase: holds. This covers every pattern of early finishes: none brings a live run to a miss."
        ),
        Verdict::Misses(Miss { task, instant }) => {
            print!(rt;
                "Verdict under two-phase: miss. The full schedule's first miss is that of task {task} at instant {instant}; "
            )?;
            println!(rt; "no pattern of early finishes brings a live run to an earlier one.")
        }
    }
}

fn tell(rt: &HostRuntime, table: &Table) -> io::Result<()> {
    tell_table(rt, table)?;
    tell_rule(rt)?;
    tell_how_to_read(rt)?;
    tell_task_numbers(rt, table)?;
    tell_column_names(rt, table)?;
    let found = tell_runs(rt, table)?;
    println!(rt)?;
    if TOLD < table.hyperperiod() {
        println!(rt; "At most {TOLD} units are told.")?;
    }
    tell_findings(rt, found)?;
    tell_verdict(rt, table)
}

fn main(rt: HostRuntime) -> io::Result<()> {
    let mut text = Vec::new(rt.alloc());
    rt.stdin().take(ENOUGH).read_to_end(&mut text)?;
    let mut table = Table::new();
    match read(&text, &mut table) {
        // as dpverdict answers it
        Err(e) => rt.stdout().write_all(printed(&Err(e)).bytes()),
        Ok(_) => tell(&rt, &table),
    }
}
