// The square root, correctly rounded as IEEE 754 says: a leaf like those of scalar, equal to its definition in model's
// specs/Root.antt at every number. It is worked out in whole numbers, since the language has no operator for it. No
// caller of `sqrt` owes anything.
#![tactic(auto)]

ghost use Rattle.std.specs.Prelude.{◌≡◌, ◌+◌, ◌*◌, ◌^◌};
ghost use Rattle.model.specs.Root.{round_root, sqrt_of};
ghost use Rattle.square_root.specs.Steps.{heron_of, Close, Whole, Digits, NearRoot};
ghost use Rattle.square_root.specs.Steps.{HeronPre, LongPre, ExtendPre, ScaledPre};

// The whole part q of a square root, and what is left, r: q * q + r is the number, and r is at most 2 * q.
#[derive(Clone, Copy)]
struct Root {
    q: u64,
    r: u64,
}

// Heron's rule: from q near the root of d to a q that is nearer, and at most a part of one below it.
fn heron(d: u64, q: u64) -> u64
    requires { HeronPre d q }
    ensures { result ≡ heron_of d q }
{
    (q + d / q) / 2
}

// A straight line near the root, one for each octave: one for both would be too far from it for two of Heron's steps.
fn line(d: u64) -> u64
    requires { LongPre d }
    ensures { Close d result }
{
    if d < 0x20_0000_0000_0000 {
        d * 106 / 0x4_0000_0000 + 0x260_0000
    } else {
        d * 75 / 0x4_0000_0000 + 0x35c_0000
    }
}

// The whole root of d and what is left. The line is near enough that Heron's rule, taken twice, gives the whole root or
// one more.
fn whole_root(d: u64) -> Root
    requires { LongPre d }
    ensures { Whole d result.q result.r }
{
    let q = heron(d, heron(d, line(d)));
    if q * q <= d {
        return Root { q, r: d - q * q };
    }
    let less = q - 1;
    Root {
        q: less,
        r: d - less * less,
    }
}

// The root of d * 2^52, from the root of d: 26 digits more by one division, after which it is right or one too large.
fn extend(d: u64, q: u64, r: u64) -> Root
    requires { ExtendPre d q r }
    ensures { Digits d result.q result.r }
{
    let a = r * 0x400_0000;
    let u = a / (q * 2);
    let x = a % (q * 2) * 0x400_0000;
    let s = q * 0x400_0000 + u;
    if u * u <= x {
        return Root { q: s, r: x - u * u };
    }
    Root {
        q: s - 1,
        r: x + (s * 2 - 1) - u * u,
    }
}

// The whole number that is nearest to the root of d * 2^52.
fn near_root(d: u64) -> u64
    requires { LongPre d }
    ensures { NearRoot d result }
{
    let w = whole_root(d);
    let v = extend(d, w.q, w.r);
    if v.q < v.r { v.q + 1 } else { v.q }
}

// The root of m * 2^e units of 2^-2096, as a number: e made even, half of it is the root's exponent.
fn scaled(m: u64, e: u64) -> f64
    requires { ScaledPre m e }
    ensures { result ≡ round_root (m * 2 ^ (e + 52)) }
{
    let h = e / 2;
    let d = if e % 2 == 0 { m } else { m * 2 };
    f64::from_bits(h * 0x10_0000_0000_0000 + near_root(d))
}

// The square root, correctly rounded: −0 gives −0, a number below zero a not-a-number.
// origin: f64::sqrt, as src/numeric/ldlt/bunch_kaufman.rs calls it
pub fn sqrt(x: f64) -> f64
    ensures { result ≡ sqrt_of x }
{
    if x != x {
        return x;
    }
    let b = f64::to_bits(x);
    if b == 0 {
        return x;
    }
    if b == 0x8000_0000_0000_0000 {
        return x;
    }
    if 0x8000_0000_0000_0000 < b {
        return 0.0 / 0.0;
    }
    if 0x7ff0_0000_0000_0000 <= b {
        return x;
    }
    let field = b / 0x10_0000_0000_0000;
    let digits = b % 0x10_0000_0000_0000;
    if field == 0 {
        let s = u64::from(u64::leading_zeros(digits)) - 11;
        scaled(digits << s, 1022 - s)
    } else {
        scaled(0x10_0000_0000_0000 + digits, field + 1021)
    }
}
