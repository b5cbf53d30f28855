#![tactic(auto)]

use answers::input::{ROOM, fill};
use answers::judging::judge;
use answers::printing::printed;
use std::io;
use std::io::Write;

fn main(rt: HostRuntime) -> io::Result<()> {
    // a rule of the project: fixed memory, so that the checker cannot fail for want of it
    let mut text = [0u8; ROOM];
    let len = fill(&mut rt.stdin(), &mut text)?;
    let answer = judge(&text[0..len]);
    rt.stdout().write_all(printed(&answer).bytes())
}
