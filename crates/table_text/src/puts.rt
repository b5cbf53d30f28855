ghost use Rattle.std.specs.Prelude.{◌+◌, ◌≤◌, length};
ghost use Rattle.table_text.specs.Puts.{Put};

// Writes the bytes of `s` from the place `at` on, and answers the place behind them.
pub(crate) fn put_bytes(out: &mut [u8], at: usize, s: &[u8]) -> usize
    requires { at + length s.now ≤ length out.old }
    ensures { Put out.old out.new at result s.now }
{
    let end = at + s.len();
    out[at..end].copy_from_slice(s);
    end
}
