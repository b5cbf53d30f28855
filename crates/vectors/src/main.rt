#![tactic(auto)]

ghost use Rattle.std.specs.Prelude.{◌≤◌, length, IfOk};

use answers::input::{ROOM, fill};
use answers::judging::judge;
use answers::printing::printed;
use std::fs::File;
use std::io;

// Reads what fits into the buffer of a file that is named by a case and an ending.
fn load(rt: &HostRuntime, name: &str, ending: &str, buffer: &mut [u8]) -> io::Result<usize>
    ensures { IfOk result (λ n. n ≤ length buffer.new) }
{
    let path = format!(in rt.alloc(); "{name}.{ending}")?;
    let mut file = File::open(rt, path.as_str())?;
    fill(&mut file, buffer)
}

// Is the text of NAME.in answered by the bytes of NAME.out?
fn passes(rt: &HostRuntime, name: &str) -> io::Result<bool> {
    let mut text = [0u8; ROOM];
    let mut expected = [0u8; ROOM];
    let len = load(rt, name, "in", &mut text)?;
    let bytes = load(rt, name, "out", &mut expected)?;
    let line = printed(&judge(&text[0..len]));
    Ok(line.bytes() == &expected[0..bytes])
}

fn main(rt: HostRuntime) -> io::Result<()> {
    for line in rt.lines(rt.alloc()) {
        let name = line?;
        if passes(&rt, name.as_str())? {
            println!(rt; "{name}: passed")?;
        } else {
            println!(rt; "{name}: failed")?;
        }
    }
    Ok(())
}
