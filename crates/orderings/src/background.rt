ghost use Rattle.std.specs.Prelude.{◌≡◌};
ghost use Rattle.orderings.specs.Background.{background, stands_later};
ghost use Rattle.orderings.specs.BackgroundList.{numbers_of};
ghost use Rattle.orderings.specs.Backed.{background_lawful};

use crate::background_list::BackgroundList;
use crate::ordering::Ordering;

/// Tasks in the background of another ordering: those outside the list are ahead of those in it, and go as the ordering
/// below says. Of two in the list the one that stands later is ahead.
#[derive(Clone, Copy, Drop)]
pub struct BackgroundLayer<O> {
    list: BackgroundList,
    lower: O,
}

impl<O> BackgroundLayer<O> {
    /// The listed tasks in the background of an ordering of the others.
    pub fn new(list: &BackgroundList, lower: O) -> BackgroundLayer<O>
        ensures keeps_list { result.list ≡ list.now }
        ensures keeps_lower { result.lower ≡ lower }
    {
        BackgroundLayer { list: *list, lower }
    }
}

// Of two places of different numbers: no place before a place, the later before the earlier; two without as `rest` says.
// A function for this and `smaller_key` would take the comparison as a closure, which is no shorter than the four cases.
fn stands_later(x: Option<usize>, y: Option<usize>, rest: bool) -> bool
    ensures { result ≡ stands_later x y rest }
{
    match (x, y) {
        (Some(x), Some(y)) => y < x,
        (Some(_), None) => false,
        (None, Some(_)) => true,
        (None, None) => rest,
    }
}

impl<O: Ordering> Ordering for BackgroundLayer<O> {
    ghost ahead = { λ o. background (numbers_of o.list) (O.ahead o.lower) };

    ghost exclusive = { λ o. (background_lawful (numbers_of o.list) _ (O.exclusive o.lower) (O.transitive o.lower)).exclusive };

    ghost transitive = { λ o. (background_lawful (numbers_of o.list) _ (O.exclusive o.lower) (O.transitive o.lower)).transitive };

    ghost irreflexive = { λ o. (background_lawful (numbers_of o.list) _ (O.exclusive o.lower) (O.transitive o.lower)).irreflexive };

    fn is_ahead(&self, i: u32, a: u32, j: u32, b: u32) -> bool {
        i != j
            && stands_later(
                self.list.place(i),
                self.list.place(j),
                self.lower.is_ahead(i, a, j, b),
            )
    }
}
