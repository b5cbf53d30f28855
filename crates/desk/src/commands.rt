use crate::naming::{Base, Named};

/// What is asked of a table text.
#[derive(Clone, Copy, Debug, PartialEq, Eq)]
pub enum Command {
    /// The verdict on the table under an ordering.
    Verdict(Named),
    /// A search for promotion times over an ordering.
    Search(Base),
    /// The table with promotion times by laxity.
    Laxity,
    /// The table's own background list.
    Background,
}

/// What stands in the place of words that are no command.
#[derive(Clone, Copy, Debug, PartialEq, Eq)]
pub enum Expected {
    ACommand,
    /// One ordering of any kind, behind `verdict`.
    AnOrdering,
    /// One ordering that stands on no other, behind `search`.
    ABase,
    /// Nothing, behind `laxity` and `background`.
    NoMore,
}
