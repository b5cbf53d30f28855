ghost use Rattle.std.specs.Prelude.{◌≡◌, false, [], length};
ghost use Rattle.orderings.specs.Places.{place_in};
ghost use Rattle.orderings.specs.BackgroundList.{numbers_of, takes_number, numbers_after_taking};

use crate::background_list::BackgroundList;
use bounded::list::Bounded;

impl BackgroundList {
    /// The empty list.
    pub fn new() -> BackgroundList
        ensures { numbers_of result ≡ [] }
    {
        BackgroundList {
            places: Bounded::new(0),
        }
    }

    /// How many numbers there are.
    pub fn len(&self) -> usize
        ensures { result ≡ length (numbers_of self.now) }
    {
        self.places.len()
    }

    /// The numbers, in the order in which they were taken.
    pub fn numbers(&self) -> &[u32]
        ensures { result.now ≡ numbers_of self.now }
    {
        self.places.as_slice()
    }

    /// Writes a number at the list's end and answers true. Answers false and leaves the list as it was where the number
    /// is in it already or 32 are: an ordinary answer, not a refusal.
    // A `bool`: a number that is there already, or a full list, is no fault of the call, so nothing is refused.
    pub fn take(&mut self, number: u32) -> bool
        ensures answer { result ≡ takes_number (numbers_of self.old) number }
        ensures numbers_after { numbers_of self.new ≡ numbers_after_taking (numbers_of self.old) number }
        ensures same_if_not_taken { result ≡ false → self.new ≡ self.old }
    {
        let room = 32;
        if self.len() >= room {
            return false;
        }
        if self.place(number).is_some() {
            return false;
        }
        self.places.push(number);
        true
    }

    // Where a number stands, if it does.
    pub(crate) fn place(&self, number: u32) -> Option<usize>
        ensures { result ≡ place_in (numbers_of self.now) number }
    {
        self.numbers().iter().position(|x| *x == number)
    }
}
