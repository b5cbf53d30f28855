ghost use Rattle.viability.specs.OwnList.{later};

use firsts::order::Order;

/// A task that may go to the background next, by its deadline and its number. Candidates are compared by their deadlines,
/// and those of equal deadlines by their numbers.
#[derive(Clone, Copy, PartialEq, Eq, PartialOrd, Ord)]
pub struct Candidate {
    pub deadline: u32,
    pub task: u32,
}

/// Candidates by their deadlines, the longest first; of two equal ones the greater task number comes first.
#[derive(Clone, Copy)]
pub struct LongestFirst;

impl Order<Candidate> for LongestFirst {
    ghost precedes = { λ _ x y. later x y };

    fn is_before(&self, x: &Candidate, y: &Candidate) -> bool {
        x > y
    }
}
