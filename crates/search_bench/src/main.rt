#![tactic(auto)]

use orderings::fixed::Fixed;
use searches::search::{Round, Search};
use std::io;
use std::io::Read;
use table_text::reading::{ENOUGH, read};
use tables::table::Table;

// The search is made so often, so that its time can be measured.
const TIMES: u32 = 300;

// No search is followed for more rounds.
const ROUNDS: u32 = 1_000_000;

// The number of the round that ends a search.
fn rounds(search: &mut Search<Fixed>) -> u32 {
    for n in 1..ROUNDS {
        if !matches!(search.round(), Round::Lowered(_)) {
            return n;
        }
    }
    ROUNDS
}

fn tell(rt: &HostRuntime, rounds: u64, table: &Table) -> io::Result<()> {
    print!(rt; "{rounds} rounds in {TIMES} searches, S")?;
    for x in table.tasks() {
        print!(rt; " {}", x.s)?;
    }
    println!(rt)
}

fn main(rt: HostRuntime) -> io::Result<()> {
    let mut text = Vec::new(rt.alloc());
    rt.stdin().take(ENOUGH).read_to_end(&mut text)?;
    let mut table = Table::new();
    if read(&text, &mut table).is_err() {
        return println!(rt; "refused");
    }
    let mut all = 0u64;
    let mut found = table;
    for _ in 0..TIMES {
        let mut search = Search::new(&table, Fixed::new(&table));
        all = all.saturating_add(u64::from(rounds(&mut search)));
        found = *search.table();
    }
    tell(&rt, all, &found)
}
