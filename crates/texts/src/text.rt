use bounded::list::Bounded;

/// What ends a record of any text that is read, printed or written.
pub const LINE_END: &[u8] = b"\r\n";

/// A text of at most `N` bytes.
#[derive(Clone, Copy)]
pub struct Text<const N: usize> {
    pub(crate) list: Bounded<u8, N>,
}

/// A line that is printed or written.
pub type Line = Text<160>;

/// A text of many lines, with room for a whole table's.
pub type Page = Text<4_352>;
