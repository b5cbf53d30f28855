ghost use Rattle.std.specs.Prelude.{◌≡◌, ◌≤◌};
ghost use Rattle.tables.specs.Divisors.{gcd, lcm};

// The greatest common divisor, by Euclid's algorithm.
fn greatest_divisor(a: u64, b: u64) -> u64
    ensures { result ≡ gcd a b }
{
    let mut x = a;
    let mut y = b;
    while y != 0 {
        let z = x % y;
        x = y;
        y = z;
    }
    x
}

// The least common multiple, of numbers so small that the product fits.
pub(crate) fn least_multiple(a: u64, b: u64) -> u64
    requires positive { 1 ≤ a }
    requires first { a ≤ 1000000000 }
    requires second { b ≤ 1000000 }
    ensures { result ≡ lcm a b }
{
    let g = greatest_divisor(a, b);
    a / g * b
}
