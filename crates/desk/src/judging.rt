ghost use Rattle.std.specs.Prelude.{◌≡◌};
ghost use Rattle.tables.specs.Tables.{tasks_of};
ghost use Rattle.schedules.specs.Schedule.{verdict_of, SaysOfEndless};
ghost use Rattle.desk.specs.Meanings.{layered, lowest_of, named_meaning};
ghost use Rattle.desk.specs.Verdicts.{answer_under, TrueUnder};

use crate::naming::{Base, Named};
use answers::answer::Answer;
use answers::judging::answer_by;
use orderings::background::BackgroundLayer;
use orderings::deadline::Deadline;
use orderings::fixed::Fixed;
use orderings::ordering::Ordering;
use orderings::promotion::PromotionLayer;
use orderings::two_phase::TwoPhase;
use schedules::verdict::Verdict;
use table_text::reading::read;
use tables::table::Table;
use viability::own_list::own_background_list;

// The ordering below the layer, if there is one.
fn lowest_of(named: Named) -> Base
    ensures { result ≡ lowest_of named }
{
    match named {
        Named::Plain(base) | Named::Promotion(base) | Named::Background(base) => base,
    }
}

// The verdict under the layer of a named ordering, over a lower ordering. Of the name only the layer counts here; a type for
// the layer alone would be a second enum of the same three cases.
fn verdict_over<O: Ordering + Drop>(table: &Table, named: Named, lower: O) -> Verdict
    ensures value { result ≡ verdict_of (tasks_of table.now) (layered (tasks_of table.now) named (O.ahead lower)) }
    ensures says_of_the_endless_schedule { SaysOfEndless (tasks_of table.now) (layered (tasks_of table.now) named (O.ahead lower)) result }
{
    match named {
        Named::Plain(_) => Verdict::of(table, &lower),
        Named::Promotion(_) => Verdict::of(table, &PromotionLayer::new(table, lower)),
        Named::Background(_) => {
            let list = own_background_list(table);
            Verdict::of(table, &BackgroundLayer::new(&list, lower))
        }
    }
}

/// The verdict on a table under a named ordering that is made from the same table.
pub fn verdict_under(table: &Table, named: Named) -> Verdict
    ensures value { result ≡ verdict_of (tasks_of table.now) (named_meaning (tasks_of table.now) named) }
    ensures says_of_the_endless_schedule { SaysOfEndless (tasks_of table.now) (named_meaning (tasks_of table.now) named) result }
{
    // each arm makes an ordering of its own type, for which the verdict is compiled
    match lowest_of(named) {
        Base::Fixed => verdict_over(table, named, Fixed::new(table)),
        Base::Deadline => verdict_over(table, named, Deadline::new(table)),
        Base::TwoPhase => verdict_over(table, named, TwoPhase::new(table)),
    }
}

/// Reads a table text and judges its table under a named ordering.
// A function for this and `judge` would take the verdict as a closure, and so have a `requires`.
pub fn judge_under(text: &[u8], named: Named) -> Answer
    ensures value { result ≡ answer_under named text.now }
    ensures true_of_the_endless_schedule { TrueUnder named text.now result }
{
    let mut table = Table::new();
    read(text, &mut table)?;
    answer_by(verdict_under(&table, named), table.hyperperiod())
}
