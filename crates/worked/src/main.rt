#![tactic(auto)]

use examples::small_tables::Examples;
use orderings::background_list::BackgroundList;
use orderings::deadline::Deadline;
use orderings::fixed::Fixed;
use orderings::promotion::PromotionLayer;
use orderings::two_phase::TwoPhase;
use refusals::kinds::Refusal;
use schedules::run::Run;
use schedules::verdict::{Miss, Verdict};
use searches::search::{Round, Search};
use std::io;
use tables::table::Table;
use tables::task::Task;
use viability::laxity::set_by_laxity;
use viability::own_list::own_background_list;

// No search of this program takes so many rounds.
const ROUNDS: u32 = 1_000;

// A task with its deadline at the end of its period.
fn task(c: u32, t: u32, p1: u32, p2: u32, s: u32) -> Task {
    Task {
        c,
        d: t,
        t,
        p1,
        p2,
        s,
    }
}

fn promoted(table: &Table) -> PromotionLayer<Fixed> {
    PromotionLayer::new(table, Fixed::new(table))
}

fn tell_verdict(rt: &HostRuntime, what: &str, verdict: Verdict) -> io::Result<()> {
    match verdict {
        Verdict::Holds => println!(rt; "{what}: holds"),
        Verdict::Misses(Miss { task, instant }) => {
            println!(rt; "{what}: miss, task {task}, instant {instant}")
        }
    }
}

fn tell_promotions(rt: &HostRuntime, table: &Table) -> io::Result<()> {
    print!(rt; "  S")?;
    for x in table.tasks() {
        print!(rt; " {}", x.s)?;
    }
    println!(rt)
}

fn tell_list(rt: &HostRuntime, what: &str, list: &BackgroundList) -> io::Result<()> {
    print!(rt; "{what}, own background list:")?;
    if list.len() == 0 {
        print!(rt; " empty")?;
    }
    for i in list.numbers() {
        print!(rt; " {i}")?;
    }
    println!(rt)
}

fn tell_round(rt: &HostRuntime, n: u32, round: Round) -> io::Result<()> {
    match round {
        Round::Lowered(i) => println!(rt; "  round {n}: lowered {i}"),
        Round::Held => println!(rt; "  round {n}: held"),
        Round::Stuck(Miss { task, instant }) => {
            println!(rt; "  round {n}: stuck, task {task}, instant {instant}")
        }
    }
}

// Which rounds of a search are told.
#[derive(Clone, Copy, PartialEq, Eq)]
enum Rounds {
    All,
    Last,
}

// The rounds of a search up to its end.
fn tell_search(rt: &HostRuntime, what: &str, table: &Table, told: Rounds) -> io::Result<()> {
    println!(rt; "{what}, search over fixed")?;
    let mut search = Search::new(table, Fixed::new(table));
    for n in 1..ROUNDS {
        let round = search.round();
        let ended = !matches!(round, Round::Lowered(_));
        if told == Rounds::All || ended {
            tell_round(rt, n, round)?;
        }
        if ended {
            break;
        }
    }
    tell_promotions(rt, search.table())
}

fn tell_left(rt: &HostRuntime, what: &str, run: &Run<PromotionLayer<Fixed>>) -> io::Result<()> {
    match run.left(1) {
        Ok(units) => println!(rt; "  {what}: task 1 has {units} left"),
        Err(_) => println!(rt; "  {what}: there is no task 1"),
    }
}

// Three ticks, and before them an early finish of task 0 in the live run.
fn tell_live(rt: &HostRuntime, table: &Table) -> io::Result<()> {
    println!(rt; "K with S 4, 5, promotion over fixed, after three ticks")?;
    let layer = promoted(table);
    let mut full = Run::new(table, &layer);
    let mut live = Run::new(table, &layer);
    if live.finish_early(0).is_err() {
        println!(rt; "  the early finish is refused")?;
    }
    for _ in 0..3 {
        if full.tick().is_err() || live.tick().is_err() {
            println!(rt; "  a tick is refused")?;
        }
    }
    tell_left(rt, "early finish of task 0 first", &live)?;
    tell_left(rt, "full schedule", &full)
}

fn tell_laxity(rt: &HostRuntime, table: &Table) -> io::Result<()> {
    let mut table = *table;
    match set_by_laxity(&mut table) {
        Ok(_) => {
            println!(rt; "Q, by laxity")?;
            tell_promotions(rt, &table)
        }
        Err(_) => println!(rt; "Q, by laxity: refused"),
    }
}

// The tables of which the theorem on `Examples::new` speaks.
fn tell_small(rt: &HostRuntime) -> io::Result<()> {
    let tables = Examples::new();
    let empty = Table::new();
    let mut k = tables.k;
    tell_verdict(
        rt,
        "empty table, fixed",
        Verdict::of(&empty, &Fixed::new(&empty)),
    )?;
    tell_verdict(rt, "K, fixed", Verdict::of(&k, &Fixed::new(&k)))?;
    tell_verdict(
        rt,
        "K with S 4, 6, promotion over fixed",
        Verdict::of(&k, &promoted(&k)),
    )?;
    tell_verdict(rt, "K, deadline", Verdict::of(&k, &Deadline::new(&k)))?;
    tell_search(rt, "K", &k, Rounds::All)?;
    tell_list(rt, "K", &own_background_list(&k))?;
    if k.set_promotion(1, 5).is_err() {
        println!(rt; "S of task 1 is not set")?;
    }
    tell_verdict(
        rt,
        "K with S 4, 5, promotion over fixed",
        Verdict::of(&k, &promoted(&k)),
    )?;
    tell_live(rt, &k)?;
    tell_list(rt, "M", &own_background_list(&tables.m))?;
    tell_list(rt, "Q", &own_background_list(&tables.q))?;
    tell_laxity(rt, &tables.q)?;
    tell_verdict(
        rt,
        "V with P1 0, 1, fixed",
        Verdict::of(&tables.v, &Fixed::new(&tables.v)),
    )?;
    tell_verdict(
        rt,
        "V with P1 1, 0, fixed",
        Verdict::of(&tables.turned, &Fixed::new(&tables.turned)),
    )
}

// Whether these tasks make a table. A refused one is empty.
fn tell_table(rt: &HostRuntime, what: &str, tasks: &[Task]) -> io::Result<Table> {
    match Table::try_from(tasks) {
        Ok(table) => {
            println!(rt; "{what}: accepted, hyperperiod {}", table.hyperperiod())?;
            Ok(table)
        }
        Err(e) => {
            println!(rt;
                "{what}: refused with number {}",
                Refusal::Adding(e).number()
            )?;
            Ok(Table::new())
        }
    }
}

fn tell_bounds(rt: &HostRuntime) -> io::Result<()> {
    let long = task(1, 1_000_000, 0, 0, 0);
    tell_table(
        rt,
        "periods 1000000 and 999",
        &[long, task(1, 999, 0, 0, 0)],
    )?;
    tell_table(
        rt,
        "periods 1000000 and 1001",
        &[long, task(1, 1_001, 0, 0, 0)],
    )?;
    Ok(())
}

fn tell_two_phase(rt: &HostRuntime) -> io::Result<()> {
    let four = tell_table(
        rt,
        "(13,29) (17,47) (4,89) (28,193)",
        &[
            task(13, 29, 4, 0, 13),
            task(17, 47, 5, 1, 17),
            task(4, 89, 7, 2, 42),
            task(28, 193, 6, 3, 139),
        ],
    )?;
    tell_verdict(
        rt,
        "  with S 13, 17, 42, 139, two-phase",
        Verdict::of(&four, &TwoPhase::new(&four)),
    )?;
    let three = tell_table(
        rt,
        "(6,13) (8,18) (6,86)",
        &[
            task(6, 13, 3, 0, 13),
            task(8, 18, 4, 1, 17),
            task(6, 86, 5, 2, 84),
        ],
    )?;
    tell_verdict(
        rt,
        "  with S 13, 17, 84, two-phase",
        Verdict::of(&three, &TwoPhase::new(&three)),
    )
}

fn tell_searches(rt: &HostRuntime) -> io::Result<()> {
    let three = tell_table(
        rt,
        "(21,28) (15,100) (16,160)",
        &[
            task(21, 28, 0, 0, 28),
            task(15, 100, 1, 1, 100),
            task(16, 160, 2, 2, 160),
        ],
    )?;
    tell_search(rt, "  the same", &three, Rounds::Last)?;
    let four = tell_table(
        rt,
        "(6,11) (6,20) (4,46) (5,74)",
        &[
            task(6, 11, 0, 0, 5),
            task(6, 20, 1, 1, 3),
            task(4, 46, 2, 2, 27),
            task(5, 74, 3, 3, 51),
        ],
    )?;
    tell_search(rt, "  the same", &four, Rounds::Last)?;
    tell_verdict(
        rt,
        "  with S 5, 3, 27, 51, promotion over fixed",
        Verdict::of(&four, &promoted(&four)),
    )
}

fn main(rt: HostRuntime) -> io::Result<()> {
    tell_small(&rt)?;
    tell_bounds(&rt)?;
    tell_two_phase(&rt)?;
    tell_searches(&rt)
}
