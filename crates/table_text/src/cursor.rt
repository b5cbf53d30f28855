ghost use Rattle.std.specs.Prelude.{◌≡◌, ◌≤◌, length, drop, IsTrue, ◌↔◌};

// A place of a text that is being read.
#[derive(Clone, Copy)]
pub struct Cursor<'a> {
    pub(crate) text: &'a [u8],
    pub(crate) at: usize,
    ghost within: { at ≤ length text.now },
}

impl<'a> Cursor<'a> {
    // What stands from here on.
    pub(crate) fn rest(&self) -> &'a [u8]
        ensures { result.now ≡ drop self.now.at self.now.text.now }
    {
        &self.text[self.at..]
    }

    // Whether the text ends here.
    pub(crate) fn is_at_end(&self) -> bool
        ensures { IsTrue result ↔ (length self.now.text.now ≤ self.now.at) }
    {
        self.at == self.text.len()
    }
}
