ghost use Rattle.std.specs.Prelude.{◌≡◌, OnErr};
ghost use Rattle.tables.specs.Tables.{tasks_of};
ghost use Rattle.tables.specs.Setting.{set_answer, tasks_after_setting};
ghost use Rattle.orderings.specs.Promotion.{promotion_key, promotion};
ghost use Rattle.orderings.specs.Keyed.{promotion_lawful};

use crate::keys::smaller_key;
use crate::ordering::Ordering;
use refusals::kinds::SetRefusal;
use tables::table::Table;

/// Promotion over another ordering: a job is promoted from age S on, and promoted jobs are ahead of the rest, by P2.
/// The rest go as the ordering below says.
#[derive(Clone, Copy, Drop)]
pub struct PromotionLayer<O> {
    table: Table,
    lower: O,
}

impl<O> PromotionLayer<O> {
    /// The promotion of a table's jobs, over an ordering of those that are not promoted.
    pub fn new(table: &Table, lower: O) -> PromotionLayer<O>
        ensures keeps_table { result.table ≡ table.now }
        ensures keeps_lower { result.lower ≡ lower }
    {
        PromotionLayer {
            table: *table,
            lower,
        }
    }

    /// The table whose jobs are promoted.
    pub fn table(&self) -> &Table
        ensures { result.now ≡ self.now.table }
    {
        &self.table
    }

    /// Sets the promotion time S of one task of the layer's table, and nothing else; the ordering below keeps what it was
    /// made from. A refused setting leaves the layer as it was.
    pub fn set_promotion(&mut self, i: u32, s: u32) -> Result<(), SetRefusal>
        ensures answer { result ≡ set_answer (tasks_of self.old.table) i s }
        ensures tasks_after { tasks_of self.new.table ≡ tasks_after_setting (tasks_of self.old.table) i s }
        ensures keeps_lower { self.new.lower ≡ self.old.lower }
        ensures same_if_refused { OnErr result (self.new ≡ self.old) }
    {
        self.table.set_promotion(i, s)
    }
}

// P2 of a promoted job.
// A match with a guard: `filter` and `map` are no plainer, and searches are slower with them.
fn key(table: &Table, i: u32, a: u32) -> Option<i64>
    ensures { result ≡ promotion_key (tasks_of table.now) i a }
{
    match table.get(i) {
        Some(t) if t.s <= a => Some(i64::from(t.p2)),
        _ => None,
    }
}

impl<O: Ordering> Ordering for PromotionLayer<O> {
    ghost ahead = { λ o. promotion (tasks_of o.table) (O.ahead o.lower) };

    ghost exclusive = { λ o. (promotion_lawful (tasks_of o.table) _ (O.exclusive o.lower) (O.transitive o.lower)).exclusive };

    ghost transitive = { λ o. (promotion_lawful (tasks_of o.table) _ (O.exclusive o.lower) (O.transitive o.lower)).transitive };

    ghost irreflexive = { λ o. (promotion_lawful (tasks_of o.table) _ (O.exclusive o.lower) (O.transitive o.lower)).irreflexive };

    fn is_ahead(&self, i: u32, a: u32, j: u32, b: u32) -> bool {
        i != j
            && match (key(&self.table, i, a), key(&self.table, j, b)) {
                (None, None) => self.lower.is_ahead(i, a, j, b),
                (x, y) => smaller_key(x, i, y, j, false),
            }
    }
}
