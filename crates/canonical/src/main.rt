#![tactic(auto)]

ghost use Rattle.std.specs.Prelude.{◌≤◌, length, IfOk};

use answers::input::{ROOM, fill};
use anyhow::anyhow;
use refusals::kinds::Refusal;
use std::io::Write;
use table_text::reading::{LONGEST, read};
use table_text::writing::write;
use tables::table::Table;

// Reads a table text and writes it again at the front of a buffer, and answers how long it is there: nothing quoted, no
// leading zeros, every record ended.
fn canonical(text: &[u8], out: &mut [u8]) -> Result<usize, Refusal>
    ensures { IfOk result (λ n. n ≤ length out.new) }
{
    let mut table = Table::new();
    read(text, &mut table)?;
    Ok(write(&table, out)?)
}

fn run(rt: &HostRuntime) -> anyhow::Result<()> {
    // fixed memory, so that no text of a table fails for want of it
    let mut text = [0u8; ROOM];
    let len = fill(&mut rt.stdin(), &mut text)?;
    let mut out = [0u8; LONGEST];
    // between quotes, as a text is told on standard error
    let len = canonical(&text[..len], &mut out).map_err(|e| anyhow!(
        "\"refused with number {}\"",
        e.number()
    ))?;
    rt.stdout().write_all(&out[..len])?;
    Ok(())
}

fn main(rt: HostRuntime) -> anyhow::Result<()> {
    run(&rt)
}
