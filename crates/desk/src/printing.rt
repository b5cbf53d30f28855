ghost use Rattle.std.specs.Prelude.{◌≡◌, ◌≤◌, length};
ghost use Rattle.texts.specs.Texts.{bytes_of, pushed};
ghost use Rattle.desk.specs.Printed.{verdict_record, refused_text, number_record, rounds_header, round_record};

use crate::naming::Named;
use answers::answer::Answer;
use answers::printing::{push_column, push_record};
use refusals::kinds::Refusal;
use searches::search::Round;
use texts::text::{LINE_END, Line};

const REFUSED_HEADER: &[u8] = b"answer,task,refusal,record,field\r\n";

const ROUNDS_HEADER: &[u8] = b"round,answer,task,instant\r\n";

/// The record of an answer under a named ordering.
pub(crate) fn verdict_line(named: Named, answer: &Answer) -> Line
    ensures bytes { bytes_of result ≡ verdict_record named answer.now }
    ensures short { length (verdict_record named answer.now) ≤ 101 }
{
    let mut line = Line::new();
    line.push_bytes(named.name().as_bytes());
    line.push(b',');
    push_record(&mut line, answer);
    line
}

/// What is printed of a refusal.
pub fn refused_line(refusal: &Refusal) -> Line
    ensures { bytes_of result ≡ refused_text refusal.now }
{
    let place = refusal.place();
    let mut line = Line::new();
    line.push_bytes(REFUSED_HEADER);
    line.push_bytes(b"refused");
    push_column(&mut line, refusal.task());
    push_column(&mut line, Some(refusal.number()));
    push_column(&mut line, place.map(|p| p.row));
    push_column(&mut line, place.map(|p| p.field));
    line.push_bytes(LINE_END);
    line
}

/// The record of a number.
pub(crate) fn number_line(number: u32) -> Line
    ensures bytes { bytes_of result ≡ number_record number }
    ensures short { length (number_record number) ≤ 12 }
{
    let mut line = Line::new();
    line.push_number(number);
    line.push_bytes(LINE_END);
    line
}

/// The header of the rounds of a search.
pub fn rounds_header() -> Line
    ensures { bytes_of result ≡ rounds_header }
{
    let mut line = Line::new();
    line.push_bytes(ROUNDS_HEADER);
    line
}

/// The record of a round of a search.
pub fn round_line(number: u32, round: Round) -> Line
    ensures { bytes_of result ≡ round_record number round }
{
    let (word, task, instant) = match round {
        Round::Lowered(task) => (b",lowered".as_slice(), Some(task), None),
        Round::Held => (b",held".as_slice(), None, None),
        Round::Stuck(miss) => (b",stuck".as_slice(), Some(miss.task), Some(miss.instant)),
    };
    let mut line = Line::new();
    line.push_number(number);
    line.push_bytes(word);
    push_column(&mut line, task);
    push_column(&mut line, instant);
    line.push_bytes(LINE_END);
    line
}
