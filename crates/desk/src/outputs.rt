ghost use Rattle.std.specs.Prelude.{◌≡◌, ◌≤◌, length, MatchResult};
ghost use Rattle.tables.specs.Tables.{tasks_of};
ghost use Rattle.table_text.specs.Written.{table_text};
ghost use Rattle.texts.specs.Texts.{bytes_of};
ghost use Rattle.desk.specs.Printed.{verdict_text, numbers_text, background_text, refused_text, laxity_text};

use crate::judging::judge_under;
use crate::naming::Named;
use crate::printing::{number_line, refused_line, verdict_line};
use refusals::kinds::Refusal;
use table_text::reading::{LONGEST, read};
use table_text::writing::write;
use tables::table::Table;
use texts::text::{Line, Page};
use viability::laxity::set_by_laxity;
use viability::own_list::own_background_list;

const VERDICT_HEADER: &[u8] = b"ordering,answer,task,instant,hyperperiod,refusal,record,field\r\n";

const NUMBERS_HEADER: &[u8] = b"task\r\n";

/// Reads a table text, judges its table under a named ordering, and gives what is printed of it.
pub fn verdict_text(text: &[u8], named: Named) -> Page
    ensures { bytes_of result ≡ verdict_text named text.now }
{
    let answer = judge_under(text, named);
    let mut page = Page::new();
    page.push_bytes(VERDICT_HEADER);
    page.push_bytes(verdict_line(named, &answer).bytes());
    page
}

// A line on a page of its own.
fn page_of(line: &Line) -> Page
    ensures { bytes_of result ≡ bytes_of line.now }
{
    let mut page = Page::new();
    page.push_bytes(line.bytes());
    page
}

// A header, and the record of each number.
fn numbers_text(numbers: &[u32]) -> Page
    requires { length numbers.now ≤ 32 }
    ensures { bytes_of result ≡ numbers_text numbers.now }
{
    let mut page = Page::new();
    page.push_bytes(NUMBERS_HEADER);
    for number in numbers {
        page.push_bytes(number_line(*number).bytes());
    }
    page
}

/// Reads a table text, and gives what is printed of its table's own background list.
pub fn background_text(text: &[u8]) -> Page
    ensures { bytes_of result ≡ background_text text.now }
{
    let mut table = Table::new();
    match read(text, &mut table) {
        Err(e) => page_of(&refused_line(&Refusal::from(e))),
        Ok(_) => numbers_text(own_background_list(&table).numbers()),
    }
}

/// The text of a table.
pub fn table_text(table: &Table) -> Page
    ensures { bytes_of result ≡ table_text (tasks_of table.now) }
{
    // `write` allocates nothing, and writes into what it is lent
    let mut out = [0u8; LONGEST];
    match write(table, &mut out) {
        Ok(n) => {
            let mut page = Page::new();
            page.push_bytes(&out[0..n]);
            page
        }
        // no table's text is longer
        Err(_) => unreachable(),
    }
}

// The table of a text, with promotion times by laxity.
fn lax_table(text: &[u8]) -> Result<Table, Refusal>
    ensures { MatchResult result
        (λ t. table_text (tasks_of t) ≡ laxity_text text.now)
        (λ e. refused_text e ≡ laxity_text text.now) }
{
    let mut table = Table::new();
    read(text, &mut table)?;
    set_by_laxity(&mut table)?;
    Ok(table)
}

/// Reads a table text, sets the promotion times of its table by laxity, and gives what is printed of it.
pub fn laxity_text(text: &[u8]) -> Page
    ensures { bytes_of result ≡ laxity_text text.now }
{
    match lax_table(text) {
        Err(e) => page_of(&refused_line(&e)),
        Ok(table) => table_text(&table),
    }
}
