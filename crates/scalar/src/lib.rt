// Leaves: functions of one or two f64 numbers, or of a number's bits, each equal to its definition in model's
// specs/Scalar.antt at every number: not-a-numbers, infinities, zeros of either sign and subnormals too. No caller owes
// anything. The square root is a crate of its own, square_root.
#![tactic(auto)]

ghost use Rattle.std.specs.Prelude.{◌≡◌};
ghost use Rattle.model.specs.Scalar.{is_finite, magnitude_of, magnitude_bits_of, square_of};
ghost use Rattle.model.specs.Scalar.{maximum_of, reciprocal_of, lift_of};

// Neither a not-a-number nor an infinity.
// origin: src/scalar.rs, fn is_finite
pub fn is_finite(x: f64) -> bool
    ensures { result ≡ is_finite x }
{
    let infinity = 1.0 / 0.0;
    if x < infinity {
        return -infinity < x;
    }
    false
}

// The sign's bit cleared, every other bit kept: a not-a-number's too, signalling or not.
pub fn magnitude_bits(bits: u64) -> u64
    ensures { result ≡ magnitude_bits_of bits }
{
    bits & !(1 << 63)
}

// x with its sign cleared, that of a zero too. A not-a-number has no bits that the language speaks of, and is given
// back. No jump comes of that: the compiled code selects, here and wherever the leaf is laid in (tests/no-jump).
// origin: src/scalar.rs, fn magnitude
pub fn magnitude(x: f64) -> f64
    ensures { result ≡ magnitude_of x }
{
    if x != x {
        return x;
    }
    f64::from_bits(magnitude_bits(f64::to_bits(x)))
}

// origin: src/scalar.rs, fn magnitude_sq
pub fn square(x: f64) -> f64
    ensures { result ≡ square_of x }
{
    x * x
}

// The greater of the two, the first of equals; of a number and a not-a-number the number.
// origin: f64::max, as src/numeric/ldlt/bunch_kaufman.rs calls it
pub fn maximum(a: f64, b: f64) -> f64
    ensures { result ≡ maximum_of a b }
{
    if a != a {
        return b;
    }
    if a < b { b } else { a }
}

// origin: src/scalar.rs, fn recip
pub fn reciprocal(x: f64) -> f64
    ensures { result ≡ reciprocal_of x }
{
    1.0 / x
}

// d at or above the floor in magnitude; the floor for a zero; else d scaled up, which may land a rounding away from it.
// origin: src/numeric/supernodal/node.rs, fn perturb_pivot
pub fn lift(floor: f64, d: f64) -> f64
    ensures { result ≡ lift_of floor d }
{
    let m = magnitude(d);
    if m >= floor {
        return d;
    }
    if m == 0.0 {
        return floor;
    }
    d * (floor / m)
}
