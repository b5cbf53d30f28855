ghost use Rattle.orderings.specs.Meaning.{Meaning};

use crate::order::Order;
use orderings::ordering::Ordering;

/// A job, by the number of its task and its age, the units since its release.
#[derive(Clone, Copy)]
pub struct Job {
    pub task: u32,
    pub age: u32,
}

/// Jobs under an ordering: the job that is ahead precedes the other.
impl<O: Ordering> Order<Job> for O {
    ghost precedes = { λ o x y. O.Ordering.ahead o x.task x.age y.task y.age };

    fn is_before(&self, x: &Job, y: &Job) -> bool {
        self.is_ahead(x.task, x.age, y.task, y.age)
    }
}
