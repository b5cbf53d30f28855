ghost use Rattle.std.specs.Prelude.{◌≡◌, [], IfSome, OnErr, OnOk};
ghost use Rattle.tables.specs.Tables.{tasks_of};
ghost use Rattle.table_text.specs.Cursors.{place_of, tasks_read};
ghost use Rattle.table_text.specs.Records.{progress};
ghost use Rattle.table_text.specs.Written.{ReadsBack};
ghost use Rattle.table_text.specs.Reading.{past_header, read_records, read_answer, tasks_after_reading};

use crate::bytes::HEADER;
use crate::cursor::Cursor;
use refusals::kinds::ReadRefusal;
use tables::table::Table;

// The place behind the header and its end, where the text begins with them.
fn past_header(text: &[u8]) -> Option<Cursor>
    ensures place { place_of result ≡ past_header text.now }
    ensures same_text { IfSome result (λ c. c.text.now ≡ text.now) }
{
    if !text.starts_with(HEADER) {
        return None;
    }
    let mut cursor = Cursor {
        text,
        at: HEADER.len(),
    };
    if cursor.pass_end() {
        Some(cursor)
    } else {
        None
    }
}

// The table of the records that follow.
fn read_records(mut cursor: Cursor) -> Result<Table, ReadRefusal>
    ensures { tasks_read result ≡ read_records 33 cursor.entry.text.now (progress [] cursor.entry.at) }
{
    let mut table = Table::new();
    while !cursor.is_at_end() {
        cursor.add_record(&mut table)?;
    }
    Ok(table)
}

/// No text of a table is longer.
pub const LONGEST: usize = 4_096;

/// So many bytes of an input settle its reading: one more than the longest text, so that an overlong one is refused.
pub const ENOUGH: u64 = LONGEST as u64 + 1;

/// Reads a table text and puts its table in the target's place. A refused reading leaves the target as it was.
#[tactic(auto, using(crate::proofs::Steps::table_too_long, crate::proofs::Steps::table_after_header))]
pub fn read(text: &[u8], target: &mut Table) -> Result<(), ReadRefusal>
    ensures answer { result ≡ read_answer text.now }
    ensures tasks_after { tasks_of target.new ≡ tasks_after_reading (tasks_of target.old) text.now }
    ensures written_again_reads_the_same { OnOk result (ReadsBack (tasks_of target.new)) }
    ensures same_if_refused { OnErr result (target.new ≡ target.old) }
{
    if text.len() > LONGEST {
        return Err(ReadRefusal::TextTooLong);
    }
    let Some(cursor) = past_header(text) else {
        return Err(ReadRefusal::OtherHeader);
    };
    *target = read_records(cursor)?;
    Ok(())
}
