ghost use Rattle.std.specs.Prelude.{◌≡◌, false, [], ◌∷◌, ◌++◌, length, take, nat_lt, slice_set};
ghost use Rattle.bounded.specs.Lists.{items_of};

use crate::list::Bounded;

impl<T: Copy, const N: usize> Bounded<T, N> {
    /// The empty list. The filler stands in the places that are not in use.
    pub fn new(filler: T) -> Self
        ensures { items_of result ≡ [] }
    {
        Bounded {
            items: [filler; N],
            count: 0,
        }
    }

    /// How many items there are.
    pub fn len(&self) -> usize
        ensures { result ≡ length (items_of self.now) }
    {
        self.as_slice().len()
    }

    /// The items, in the order in which they were pushed.
    pub fn as_slice(&self) -> &[T]
        ensures { result.now ≡ items_of self.now }
    {
        &self.items[..self.count]
    }

    /// Writes an item behind the others and answers true. Answers false and leaves the list as it was where `N` are in it:
    /// an ordinary answer, not a refusal.
    pub fn push(&mut self, x: T) -> bool
        ensures answer { result ≡ nat_lt (length (items_of self.old)) N }
        ensures items_after { items_of self.new ≡ take N (items_of self.old ++ x ∷ []) }
        ensures same_if_full { result ≡ false → self.new ≡ self.old }
    {
        if self.count < N {
            self.items[self.count] = x;
            self.count += 1;
            true
        } else {
            false
        }
    }

    /// Writes an item in the place of another. Leaves the list as it was where nothing stands at that place.
    pub fn set(&mut self, i: usize, x: T)
        ensures { items_of self.new ≡ slice_set (items_of self.old) i x }
    {
        if i < self.count {
            self.items[i] = x;
        }
    }
}
