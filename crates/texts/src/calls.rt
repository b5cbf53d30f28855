ghost use Rattle.std.specs.Prelude.{◌≡◌, [], ◌∷◌, decimal};
ghost use Rattle.texts.specs.Texts.{bytes_of, pushed};

use crate::text::Text;
use bounded::list::Bounded;
use itoa::Buffer;

impl<const N: usize> Text<N> {
    /// The empty text.
    pub fn new() -> Self
        ensures { bytes_of result ≡ [] }
    {
        Text {
            list: Bounded::new(0),
        }
    }

    /// The bytes of the text.
    pub fn bytes(&self) -> &[u8]
        ensures { result.now ≡ bytes_of self.now }
    {
        self.list.as_slice()
    }

    /// Writes one byte behind the others. What passes `N` bytes is left out.
    #[tactic(auto, unfolding(crate::specs::Texts::pushed))]
    pub fn push(&mut self, b: u8)
        ensures { bytes_of self.new ≡ pushed N (bytes_of self.old) (b ∷ []) }
    {
        self.list.push(b);
    }

    /// Writes bytes behind the others. What passes `N` bytes is left out.
    pub fn push_bytes(&mut self, bytes: &[u8])
        ensures { bytes_of self.new ≡ pushed N (bytes_of self.old) bytes.now }
    {
        for b in bytes {
            self.push(*b);
        }
    }

    /// Writes a number in decimal digits behind the others. What passes `N` bytes is left out.
    pub fn push_number(&mut self, v: u32)
        ensures { bytes_of self.new ≡ pushed N (bytes_of self.old) (decimal v) }
    {
        let mut digits = Buffer::new();
        self.push_bytes(digits.format(v).as_bytes());
    }
}
