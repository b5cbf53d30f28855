ghost use Rattle.std.specs.Prelude.{◌≡◌, Bool};
ghost use Rattle.std.specs.Option.{option_map};
ghost use Rattle.firsts.specs.First.{first_in_order, Distinct, ExclusiveOn, TransitiveOn, IsFirst};

/// An order among items of any kind.
// A rule of the project: a trait. An order may hold what it goes by, as an ordering holds its table, and has a meaning.
pub trait Order<T> {
    /// The meaning: does the first item precede the second?
    ghost precedes: { Self → T → T → Bool };

    fn is_before(&self, x: &T, y: &T) -> bool
        ensures { result ≡ precedes self.now x.now y.now };
}

/// The first item of a list under an order, or none of an empty list.
/// Where the items are distinct and the order is total and transitive on them, it precedes all others.
pub fn first<'a, T, R: Order<T>>(items: &'a [T], order: &R) -> Option<&'a T>
    ensures value { option_map (λ x. x.now) result ≡ first_in_order (R.precedes order.now) items.now }
    ensures precedes_all_others { Distinct items.now → ExclusiveOn (R.precedes order.now) items.now → TransitiveOn (R.precedes order.now) items.now → IsFirst (R.precedes order.now) items.now (option_map (λ x. x.now) result) }
{
    items
        .iter()
        .reduce(|best, x| if order.is_before(x, best) { x } else { best })
}
