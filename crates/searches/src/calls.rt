ghost use Rattle.std.specs.Prelude.{◌≡◌};
ghost use Rattle.tables.specs.Tables.{tasks_of};
ghost use Rattle.schedules.specs.declared.verdict.Verdict.TheVariants.{Misses};
ghost use Rattle.searches.specs.declared.search.Stage.TheVariants.{Open};
ghost use Rattle.searches.specs.Searches.{trial_of, ordering_below, begun, at_deadlines, verdict_from, after_verdict, answer_by_verdict, round_after, round_answer, promotion_answer};
ghost use Rattle.searches.specs.SearchLaws.{PromotionsNeverRise, OnlyPromotionsChange, HeldIsHolding, StuckIsMissingAtZero, EndsWithinTheSumOfDeadlines};

use crate::search::{Round, Search, Stage};
use orderings::ordering::Ordering;
use orderings::promotion::PromotionLayer;
use refusals::kinds::QuestionRefusal;
use schedules::verdict::{Miss, Verdict};
use tables::table::Table;

// The table with each S at its D.
fn at_deadlines(table: &Table) -> Table
    ensures { tasks_of result ≡ at_deadlines (tasks_of table.now) }
{
    let mut moved = *table;
    for (i, task) in table.tasks().iter().enumerate() {
        // never refused: S may be as late as D
        let _ = moved.set_promotion(i as u32, task.d);
    }
    moved
}

impl<O: Ordering> Search<O> {
    /// A new search: open, and the promotion time of every task is its deadline.
    pub fn new(table: &Table, lower: O) -> Search<O>
        ensures begins { trial_of result ≡ begun (tasks_of table.now) }
        ensures keeps_lower { ordering_below result ≡ lower }
        ensures promotions_never_rise { PromotionsNeverRise (tasks_of table.now) (O.ahead lower) }
        ensures only_promotions_change_and_stay_within_deadlines { OnlyPromotionsChange (tasks_of table.now) (O.ahead lower) }
        ensures held_is_holding { HeldIsHolding (tasks_of table.now) (O.ahead lower) }
        ensures stuck_is_missing_at_zero { StuckIsMissingAtZero (tasks_of table.now) (O.ahead lower) }
        ensures ends_within_the_sum_of_deadlines { EndsWithinTheSumOfDeadlines (tasks_of table.now) (O.ahead lower) }
    {
        Search {
            layer: PromotionLayer::new(&at_deadlines(table), lower),
            stage: Stage::Open,
        }
    }

    /// The promotion time that the search has for a task, in every stage.
    pub fn promotion(&self, i: u32) -> Result<u32, QuestionRefusal>
        ensures { result ≡ promotion_answer (trial_of self.now) i }
    {
        let task = self.table().get(i).ok_or(QuestionRefusal::NoSuchTask)?;
        Ok(task.s)
    }

    /// The table with the promotion times of the search.
    pub fn table(&self) -> &Table
        ensures { tasks_of result.now ≡ (trial_of self.now).tasks }
    {
        self.layer.table()
    }

    /// How far the search is.
    pub fn stage(&self) -> Stage
        ensures { result ≡ (trial_of self.now).stage }
    {
        self.stage
    }

    /// One round. On an open search it lowers the promotion time of the first task that misses by one unit, and answers
    /// its number; where none misses the search is held, and where that promotion time is 0 it is stuck. A search that is
    /// held or stuck stays as it is, and answers the same again.
    pub fn round(&mut self) -> Round
        ensures answer { result ≡ round_answer (O.ahead (ordering_below self.old)) (trial_of self.old) }
        ensures after { trial_of self.new ≡ round_after (O.ahead (ordering_below self.old)) (trial_of self.old) }
        ensures keeps_lower { ordering_below self.new ≡ ordering_below self.old }
    {
        match (self.stage, self.verdict()) {
            (Stage::Open, Verdict::Holds) => {
                self.stage = Stage::Held;
                Round::Held
            }
            (Stage::Open, Verdict::Misses(miss)) => self.lower(miss),
            (Stage::Held, _) => Round::Held,
            (Stage::Stuck(miss), _) => Round::Stuck(miss),
        }
    }

    // The verdict with the promotion times of the search; where the stage tells it, nothing is run.
    fn verdict(&self) -> Verdict
        ensures { result ≡ verdict_from (O.ahead (ordering_below self.now)) (trial_of self.now).tasks (trial_of self.now).stage }
    {
        match self.stage {
            Stage::Open => Verdict::of(self.layer.table(), &self.layer),
            Stage::Held => Verdict::Holds,
            Stage::Stuck(miss) => Verdict::Misses(miss),
        }
    }

    // A round on an open search with a miss: the promotion time of that task falls while it is above 0.
    fn lower(&mut self, miss: Miss) -> Round
        requires { self.old.stage ≡ Open }
        ensures answer { result ≡ answer_by_verdict (trial_of self.old).tasks (Misses miss) }
        ensures after { trial_of self.new ≡ after_verdict (trial_of self.old).tasks (Misses miss) }
        ensures keeps_lower { ordering_below self.new ≡ ordering_below self.old }
    {
        match self.promotion(miss.task) {
            Ok(s) if s > 0 => {
                // never refused: the task is there, and its promotion time falls
                let _ = self.layer.set_promotion(miss.task, s - 1);
                Round::Lowered(miss.task)
            }
            _ => {
                self.stage = Stage::Stuck(miss);
                Round::Stuck(miss)
            }
        }
    }
}
