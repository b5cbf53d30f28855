ghost use Rattle.std.specs.Prelude.{◌≡◌};
ghost use Rattle.orderings.specs.Keys.{smaller_key};

// Of two jobs of different tasks: the smaller key first, then the lower number; a job with a key before one without;
// two without as `rest` says.
pub(crate) fn smaller_key(x: Option<i64>, i: u32, y: Option<i64>, j: u32, rest: bool) -> bool
    ensures { result ≡ smaller_key x i y j rest }
{
    match (x, y) {
        (Some(x), Some(y)) => (x, i) < (y, j),
        (Some(_), None) => true,
        (None, Some(_)) => false,
        (None, None) => rest,
    }
}
