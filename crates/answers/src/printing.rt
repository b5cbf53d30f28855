ghost use Rattle.std.specs.Prelude.{◌≡◌, ◌≤◌, length};
ghost use Rattle.texts.specs.Texts.{bytes_of, pushed};
ghost use Rattle.answers.specs.Texts.{column, judged_columns, refused_columns, columns_of, columns_text, answer_text};

use crate::answer::{Answer, Judged};
use crate::columns::{Columns, Word};
use refusals::kinds::{ReadRefusal, Refusal};
use schedules::verdict::Verdict;
use texts::text::{LINE_END, Line};

const HEADER: &[u8] = b"answer,task,instant,hyperperiod,refusal,record,field\r\n";

// The fields of the record that tells of a table.
fn judged_columns(judged: Judged) -> Columns
    ensures { result ≡ judged_columns judged.hyperperiod judged.verdict }
{
    let hyperperiod = Some(judged.hyperperiod);
    match judged.verdict {
        Verdict::Holds => Columns {
            word: Word::Holds,
            hyperperiod,
            ..Columns::BARE
        },
        Verdict::Misses(miss) => Columns {
            word: Word::Miss,
            task: Some(miss.task),
            instant: Some(miss.instant),
            hyperperiod,
            ..Columns::BARE
        },
    }
}

// The fields of the record that tells why a text is not a table's.
fn refused_columns(e: ReadRefusal) -> Columns
    ensures { result ≡ refused_columns e }
{
    let refusal = Refusal::from(e);
    let place = refusal.place();
    Columns {
        refusal: Some(refusal.number()),
        row: place.map(|place| place.row),
        field: place.map(|place| place.field),
        ..Columns::BARE
    }
}

// The fields of an answer's record.
fn columns(answer: &Answer) -> Columns
    ensures { result ≡ columns_of answer.now }
{
    match *answer {
        Ok(judged) => judged_columns(judged),
        Err(e) => refused_columns(e),
    }
}

/// Writes a comma and, behind it, the number if there is one: at most 11 bytes.
pub fn push_column(line: &mut Line, number: Option<u32>)
    ensures after { bytes_of line.new ≡ pushed 160 (bytes_of line.old) (column number) }
    ensures short { length (column number) ≤ 11 }
{
    line.push(b',');
    if let Some(v) = number {
        line.push_number(v);
    }
}

// An answer's record, ended: at most 75 bytes.
fn push_columns(line: &mut Line, c: &Columns)
    ensures after { bytes_of line.new ≡ pushed 160 (bytes_of line.old) (columns_text c.now) }
    ensures short { length (columns_text c.now) ≤ 75 }
{
    line.push_bytes(c.word.text().as_bytes());
    push_column(line, c.task);
    push_column(line, c.instant);
    push_column(line, c.hyperperiod);
    push_column(line, c.refusal);
    push_column(line, c.row);
    push_column(line, c.field);
    line.push_bytes(LINE_END);
}

/// Writes an answer's record, ended: at most 75 bytes.
pub fn push_record(line: &mut Line, answer: &Answer)
    ensures after { bytes_of line.new ≡ pushed 160 (bytes_of line.old) (columns_text (columns_of answer.now)) }
    ensures short { length (columns_text (columns_of answer.now)) ≤ 75 }
{
    let columns = columns(answer);
    push_columns(line, &columns);
}

/// The text of an answer: the header's record and the answer's.
pub fn printed(answer: &Answer) -> Line
    ensures { bytes_of result ≡ answer_text answer.now }
{
    let mut line = Line::new();
    line.push_bytes(HEADER);
    push_record(&mut line, answer);
    line
}
