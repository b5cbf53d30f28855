ghost use Rattle.std.specs.Prelude.{◌<◌, ◌≤◌, length, take, IfOk, OnErr};
ghost use Rattle.std.specs.Io.KnownBytes.{Consumes, IsAtEnd};
ghost use Rattle.answers.specs.Inputs.{FrontIsTaken};

use std::io;
use std::io::Read;
use table_text::reading::LONGEST;

/// Room for a text that a program reads: one byte more than the longest, so that an overlong one is seen.
pub const ROOM: usize = LONGEST + 1;

/// Reads until the buffer is full or the input ends, and answers how many bytes were read. They stand at the buffer's front.
/// After an error the bytes that came before it stand there. What is said of bytes is said where the input's are known: those
/// of a text are, those of a file or of standard input are the system's matter.
pub fn fill<R: Read>(input: &mut R, buffer: &mut [u8]) -> io::Result<usize>
    ensures within_the_buffer { IfOk result (λ n. n ≤ length buffer.new) }
    ensures takes_what_comes { IfOk result (λ n. Consumes (R.remaining input.old) (R.remaining input.new) (take n buffer.new)) }
    ensures short_only_at_the_end { IfOk result (λ n. n < length buffer.new → IsAtEnd (R.remaining input.new)) }
    ensures loses_nothing_on_error { OnErr result (FrontIsTaken (R.remaining input.old) (R.remaining input.new) buffer.new) }
{
    let mut len = 0;
    while len < buffer.len() {
        let more = input.read(&mut buffer[len..])?;
        if more == 0 {
            break;
        }
        len += more;
    }
    Ok(len)
}
