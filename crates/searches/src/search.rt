use orderings::promotion::PromotionLayer;
use schedules::verdict::Miss;

/// How far a search is.
// A rule of the project: the search and a round's answer are two enums, and stuck holds the record of the verdict's miss.
#[derive(Clone, Copy, Debug, PartialEq, Eq)]
pub enum Stage {
    /// There may be promotion times to lower.
    Open,
    /// The table holds with the promotion times as they are.
    Held,
    /// The table misses with the promotion times as they are, and the task that misses is promoted from its release on.
    /// Other promotion times may still let the table hold.
    Stuck(Miss),
}

/// What a round answers.
#[derive(Clone, Copy, Debug, PartialEq, Eq)]
pub enum Round {
    /// The promotion time of this task fell by one unit.
    Lowered(u32),
    Held,
    Stuck(Miss),
}

/// A search for promotion times under which a table holds: the promotion time of the first task that misses falls by one
/// unit in each round. The layer's table has the promotion times of the search; the ordering below it keeps what it was
/// made from.
#[derive(Drop)]
pub struct Search<O> {
    pub(crate) layer: PromotionLayer<O>,
    pub(crate) stage: Stage,
}
