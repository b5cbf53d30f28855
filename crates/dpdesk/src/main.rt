#![tactic(auto)]

use anyhow::anyhow;
use desk::commands::Command;
use desk::naming::Base;
use desk::outputs::{background_text, laxity_text, table_text, verdict_text};
use desk::printing::{refused_line, round_line, rounds_header};
use desk::rounds::enough_rounds;
use desk::words::{command_of, told};
use orderings::deadline::Deadline;
use orderings::fixed::Fixed;
use orderings::ordering::Ordering;
use orderings::two_phase::TwoPhase;
use refusals::kinds::Refusal;
use searches::search::{Round, Search};
use std::env;
use std::io::{Read, Write};
use table_text::reading::{ENOUGH, read};
use tables::table::Table;

// The command of the words behind the program's name.
fn asked(rt: &HostRuntime) -> anyhow::Result<Command> {
    let words: Vec<String> = env::args(rt)?.skip(1).collect(rt.alloc())?;
    // between quotes, as a text is told on standard error; by `told`, which gives its text in every case
    command_of(&words).map_err(|expected| anyhow!("{:?}", told(expected)))
}

// Searches for promotion times over an ordering, and prints each round as it comes and then the table.
fn search<O: Ordering + Drop>(rt: &HostRuntime, table: &Table, lower: O) -> anyhow::Result<()> {
    let mut out = rt.stdout();
    let mut search = Search::new(table, lower);
    out.write_all(rounds_header().bytes())?;
    for number in 1..=enough_rounds(table) {
        let round = search.round();
        out.write_all(round_line(number, round).bytes())?;
        match round {
            Round::Lowered(_) => {}
            _ => break,
        }
    }
    out.write_all(table_text(search.table()).bytes())?;
    Ok(())
}

fn search_text(rt: &HostRuntime, text: &[u8], base: Base) -> anyhow::Result<()> {
    let mut table = Table::new();
    if let Err(e) = read(text, &mut table) {
        rt.stdout()
            .write_all(refused_line(&Refusal::from(e)).bytes())?;
        return Ok(());
    }
    // each arm makes an ordering of its own type, for which the search is compiled
    match base {
        Base::Fixed => search(rt, &table, Fixed::new(&table)),
        Base::Deadline => search(rt, &table, Deadline::new(&table)),
        Base::TwoPhase => search(rt, &table, TwoPhase::new(&table)),
    }
}

fn run(rt: &HostRuntime) -> anyhow::Result<()> {
    let command = asked(rt)?;
    let mut text = Vec::new(rt.alloc());
    rt.stdin().take(ENOUGH).read_to_end(&mut text)?;
    let answer = match command {
        Command::Verdict(named) => verdict_text(&text, named),
        Command::Background => background_text(&text),
        Command::Laxity => laxity_text(&text),
        Command::Search(base) => return search_text(rt, &text, base),
    };
    rt.stdout().write_all(answer.bytes())?;
    Ok(())
}

fn main(rt: HostRuntime) -> anyhow::Result<()> {
    run(&rt)
}
