ghost use Rattle.std.specs.Prelude.{◌≡◌};
ghost use Rattle.orderings.specs.Meaning.{Meaning, Exclusive, Transitive, Irreflexive};

/// An order among jobs. A job is named by its task number and its age, the units since its release.
// A rule of the project: one question with plain numbers, and its meaning and laws beside it.
pub trait Ordering {
    /// The meaning: is the job of task i at age a ahead of that of task j at age b?
    ghost ahead: { Self → Meaning };

    /// Answers the question. Asking changes nothing.
    fn is_ahead(&self, i: u32, a: u32, j: u32, b: u32) -> bool
        ensures { result ≡ ahead self.now i a j b };

    /// Of two jobs of different tasks exactly one is ahead of the other.
    ghost exclusive: { (o : Self) → Exclusive (ahead o) };

    /// Among three different tasks, who is ahead of one that is ahead of a third is ahead of the third.
    ghost transitive: { (o : Self) → Transitive (ahead o) };

    /// No job is ahead of one of the same task.
    ghost irreflexive: { (o : Self) → Irreflexive (ahead o) };
}
