ghost use Rattle.std.specs.Prelude.{◌≡◌};
ghost use Rattle.answers.specs.Answers.{answer_by_verdict, answer_to, TrueOf};

use crate::answer::{Answer, Judged};
use orderings::two_phase::TwoPhase;
use schedules::verdict::Verdict;
use table_text::reading::read;
use tables::table::Table;

/// The answer that tells a verdict and the hyperperiod of its table.
pub fn answer_by(verdict: Verdict, hyperperiod: u32) -> Answer
    ensures { result ≡ answer_by_verdict hyperperiod verdict }
{
    Ok(Judged {
        verdict,
        hyperperiod,
    })
}

/// Reads a table text and judges its table under the two-phase ordering.
// A function for this and the like one under a named ordering would take the verdict as a closure, and so have a `requires`.
pub fn judge(text: &[u8]) -> Answer
    ensures value { result ≡ answer_to text.now }
    ensures true_of_the_endless_schedule { TrueOf text.now result }
{
    let mut table = Table::new();
    read(text, &mut table)?;
    let ordering = TwoPhase::new(&table);
    answer_by(Verdict::of(&table, &ordering), table.hyperperiod())
}
