ghost use Rattle.std.specs.Prelude.{◌≡◌, drop};
ghost use Rattle.table_text.specs.Separators.{past_comma, past_end, past_separator};
ghost use Rattle.table_text.specs.Cursors.{place_if};

use crate::bytes::{CARRIAGE_RETURN, COMMA, LINE_FEED};
use crate::cursor::Cursor;

impl Cursor<'_> {
    // Passes a comma, where one stands here.
    fn pass_comma(&mut self) -> bool
        ensures place { place_if result self.new.at ≡ past_comma self.old.at (drop self.old.at self.old.text.now) }
        ensures same_text { self.new.text.now ≡ self.old.text.now }
    {
        match self.rest() {
            [COMMA, ..] => {
                self.at += 1;
                true
            }
            _ => false,
        }
    }

    // Passes a record's end, where one stands here.
    pub(crate) fn pass_end(&mut self) -> bool
        ensures place { place_if result self.new.at ≡ past_end self.old.at (drop self.old.at self.old.text.now) }
        ensures same_text { self.new.text.now ≡ self.old.text.now }
    {
        match self.rest() {
            [] => true,
            [CARRIAGE_RETURN, LINE_FEED, ..] => {
                self.at += 2;
                true
            }
            _ => false,
        }
    }

    // Passes what follows field k, where that stands here.
    pub(crate) fn pass_separator(&mut self, k: u32) -> bool
        ensures place { place_if result self.new.at ≡ past_separator k self.old.at (drop self.old.at self.old.text.now) }
        ensures same_text { self.new.text.now ≡ self.old.text.now }
    {
        let last = 6;
        if k < last {
            self.pass_comma()
        } else {
            self.pass_end()
        }
    }
}
