ghost use Rattle.std.specs.Prelude.{◌≡◌, ◌≤◌, length, drop};
ghost use Rattle.table_text.specs.Fields.{field_length, field_bytes, field_end, plain_number, field_number, field_at};
ghost use Rattle.table_text.specs.Cursors.{read_to};

use crate::bytes::{CARRIAGE_RETURN, COMMA, QUOTE, ZERO};
use crate::cursor::Cursor;
use refusals::kinds::FieldFault;

// How far it is to the next comma, carriage return or the end of the text.
fn field_length(rest: &[u8]) -> usize
    ensures value { result ≡ field_length rest.now }
    ensures bound { result ≤ length rest.now }
{
    rest.iter()
        .take_while(|b| **b != COMMA && **b != CARRIAGE_RETURN)
        .count()
}

// A number of 1 to 7 digits.
fn plain_number(s: &[u8]) -> Option<u32>
    ensures { result ≡ plain_number s.now }
{
    let n = s.len();
    let least = 1;
    let most = 7;
    if n < least || n > most {
        return None;
    }
    // by hand: the library's `parse` takes a sign, too
    let mut v = 0;
    for b in s {
        if !b.is_ascii_digit() {
            return None;
        }
        v = 10 * v + (*b - ZERO) as u32;
    }
    Some(v)
}

// A number of 1 to 7 digits, bare or within double quotes.
fn field_number(s: &[u8]) -> Option<u32>
    ensures { result ≡ field_number s.now }
{
    match s {
        [QUOTE, within @ .., QUOTE] => plain_number(within),
        _ => plain_number(s),
    }
}

impl<'a> Cursor<'a> {
    // Passes a field, and gives its bytes.
    fn pass_field(&mut self) -> &'a [u8]
        ensures bytes { result.now ≡ field_bytes (drop self.old.at self.old.text.now) }
        ensures place { self.new.at ≡ field_end self.old.text.now self.old.at }
        ensures same_text { self.new.text.now ≡ self.old.text.now }
    {
        let rest = self.rest();
        let n = field_length(rest);
        self.at += n;
        &rest[..n]
    }

    // Reads a field, which is number k of the record.
    pub(crate) fn read_field(&mut self, row: u32, k: u32) -> Result<u32, FieldFault>
        ensures value { read_to self.new.at result ≡ field_at self.old.text.now self.old.at row k }
        ensures same_text { self.new.text.now ≡ self.old.text.now }
    {
        field_number(self.pass_field()).ok_or(FieldFault { row, field: k })
    }
}
