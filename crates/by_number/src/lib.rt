#![tactic(auto)]

ghost use Rattle.std.specs.Prelude.{ltb};
ghost use Rattle.std.proofs.Common.{rules};

use orderings::ordering::Ordering;

/// The lower task number is ahead, whatever the ages: the least that an ordering of one's own takes.
#[derive(Clone, Copy)]
pub struct ByNumber;

impl Ordering for ByNumber {
    ghost ahead = { λ _ i a j b. ltb i j };

    ghost exclusive = { Prim.search rules };

    ghost transitive = { Prim.search rules };

    ghost irreflexive = { Prim.search rules };

    fn is_ahead(&self, i: u32, a: u32, j: u32, b: u32) -> bool {
        i < j
    }
}
