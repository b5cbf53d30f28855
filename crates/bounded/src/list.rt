ghost use Rattle.std.specs.Prelude.{◌≡◌, ◌≤◌, length, ⊤};

use std::alloc::AllocError;

/// A list of at most `N` items, in memory of its own: the first `count` places, and what stands behind them means nothing.
// Not the kit's `arrayvec`: a list of that crate cannot be copied, and a table can.
#[derive(Copy)]
pub struct Bounded<T, const N: usize> {
    pub(crate) items: [T; N],
    pub(crate) count: usize,
    ghost wide: { length items ≡ N },
    ghost within: { count ≤ N },
}

// No derive: Rattle refuses one of `Clone` for a type with a type parameter and a ghost field.
impl<T: Copy, const N: usize> Clone for Bounded<T, N> {
    ghost is_clone = { λ list copy. copy ≡ list };

    ghost is_infallible = { λ _. ⊤ };

    fn clone(&self) -> Result<Bounded<T, N>, AllocError> {
        Ok(*self)
    }
}
