ghost use Rattle.std.specs.Prelude.{◌≡◌, ◌+◌, ◌≤◌, length, OnErr};
ghost use Rattle.std.specs.List.{flat_map};
ghost use Rattle.texts.specs.Texts.{bytes_of, pushed};
ghost use Rattle.tables.specs.Tables.{tasks_of};
ghost use Rattle.table_text.specs.Puts.{Put};
ghost use Rattle.table_text.specs.Written.{field_text, record_text, table_text, write_answer, buffer_after, ReadsBack};

use crate::bytes::{CARRIAGE_RETURN, COMMA, HEADER, LINE_FEED};
use crate::puts::put_bytes;
use refusals::kinds::WriteRefusal;
use tables::table::Table;
use tables::task::Task;
use texts::text::{LINE_END, Line};

// A number and the byte behind it: at most 11 bytes.
fn push_field(line: &mut Line, v: u32, b: u8)
    ensures after { bytes_of line.new ≡ pushed 160 (bytes_of line.old) (field_text v b) }
    ensures short { length (field_text v b) ≤ 11 }
{
    line.push_number(v);
    line.push(b);
}

// A task's record, ended: at most 67 bytes.
fn record_line(x: &Task) -> Line
    ensures bytes { bytes_of result ≡ record_text x.now }
    ensures short { length (record_text x.now) ≤ 67 }
{
    let mut line = Line::new();
    push_field(&mut line, x.c, COMMA);
    push_field(&mut line, x.d, COMMA);
    push_field(&mut line, x.t, COMMA);
    push_field(&mut line, x.p1, COMMA);
    push_field(&mut line, x.p2, COMMA);
    push_field(&mut line, x.s, CARRIAGE_RETURN);
    line.push(LINE_FEED);
    line
}

// The length of the text of these tasks.
fn text_length(tasks: &[Task]) -> usize
    requires { length tasks.now ≤ 32 }
    ensures value { result ≡ length (table_text tasks.now) }
    ensures bound { result ≤ 4096 }
{
    let mut n = HEADER.len() + LINE_END.len();
    for x in tasks {
        n += record_line(x).bytes().len();
    }
    n
}

// Writes the records of these tasks from the place `start` on, and answers the place behind them.
fn put_records(tasks: &[Task], out: &mut [u8], start: usize) -> usize
    requires { start + length (flat_map record_text tasks.now) ≤ length out.old }
    ensures { Put out.old out.new start result (flat_map record_text tasks.now) }
{
    let mut at = start;
    for x in tasks {
        at = put_bytes(out, at, record_line(x).bytes());
    }
    at
}

/// Writes a table's text into a lent buffer and answers the text's length. The bytes behind the text stay as they were,
/// and a buffer that is shorter than the text is not touched.
pub fn write(table: &Table, out: &mut [u8]) -> Result<usize, WriteRefusal>
    ensures answer { result ≡ write_answer (table_text (tasks_of table.now)) out.old }
    ensures buffer_after { out.new ≡ buffer_after (table_text (tasks_of table.now)) out.old }
    ensures reads_back { ReadsBack (tasks_of table.now) }
    ensures same_if_refused { OnErr result (out.new ≡ out.old) }
{
    let n = text_length(table.tasks());
    if n > out.len() {
        return Err(WriteRefusal::BufferTooShort);
    }
    let headed = put_bytes(out, 0, HEADER);
    let start = put_bytes(out, headed, LINE_END);
    Ok(put_records(table.tasks(), out, start))
}
