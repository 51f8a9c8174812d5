// What document 01 asks of a double: whether it is finite, whether it is a zero, and its magnitude.
#![tactic(auto)]

ghost use Rattle.std.specs.Prelude.{◌≡◌};
ghost use Rattle.std.specs.Float.Ieee.Scale.{finite};
ghost use Rattle.numbers.specs.Numbers.{magnitude, is_zero};

// Whether x is neither an infinity nor a NaN: such a number less itself is a number.
pub fn is_finite(x: f64) -> bool
    ensures { result ≡ finite x }
{
    let d = x - x;
    d == d
}

// Whether x is a zero of either sign.
pub fn is_zero(x: f64) -> bool
    ensures { result ≡ is_zero x }
{
    // No method of std's asks this; `==` takes both zeros for one.
    x == 0.0
}

// x without its sign, but for a zero (`norm1`).
pub fn magnitude(x: f64) -> f64
    ensures { result ≡ magnitude x }
{
    // `abs` would make a negative zero positive, and the contract's `magnitude` keeps it.
    if x < 0.0 { -x } else { x }
}
