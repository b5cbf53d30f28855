use refusals::kinds::ReadRefusal;
use schedules::verdict::Verdict;

/// What is told of a table: the verdict on it and its hyperperiod.
#[derive(Clone, Copy)]
pub struct Judged {
    pub verdict: Verdict,
    pub hyperperiod: u32,
}

/// What a table text is answered: what is told of its table, or why the text is not a table's.
pub type Answer = Result<Judged, ReadRefusal>;
