// Whole numbers and f64 numbers out of bytes, the least byte first, and an f64 number's bits.
// A reader may rely on equations with the definitions in specs/LittleEndian.antt and with IEEE 754's patterns. Every
// not-a-number is the pattern 7FF8000000000000, and every pattern of one is read as a not-a-number.
#![tactic(auto)]

ghost use Rattle.std.specs.Prelude.{◌≡◌, ◌+◌, ◌*◌, ◌≤◌, length, take, drop};
ghost use Rattle.std.specs.Float.{binary64};
ghost use Rattle.std.specs.Float.Ieee.{of_bits, to_bits};
ghost use Rattle.little_endian.specs.LittleEndian.{le16, le32, le64, numbers_of};

// ---- whole numbers

// The N bytes from place at on.
fn bytes_at<const N: usize>(s: &[u8], at: usize) -> [u8; N]
    requires { at + N ≤ length s.now }
    ensures { result ≡ take N (drop at s.now) }
{
    let mut bytes = [0; N];
    bytes.copy_from_slice(&s[at..at + N]);
    bytes
}

// The u16 in the two bytes from place at on.
pub fn u16_at(s: &[u8], at: usize) -> u16
    requires { at + 2 ≤ length s.now }
    ensures { result ≡ le16 s.now at }
{
    u16::from_le_bytes(bytes_at(s, at))
}

// The u32 in the four.
pub fn u32_at(s: &[u8], at: usize) -> u32
    requires { at + 4 ≤ length s.now }
    ensures { result ≡ le32 s.now at }
{
    u32::from_le_bytes(bytes_at(s, at))
}

// The u64 in the eight.
pub fn u64_at(s: &[u8], at: usize) -> u64
    requires { at + 8 ≤ length s.now }
    ensures { result ≡ le64 s.now at }
{
    u64::from_le_bytes(bytes_at(s, at))
}

// ---- numbers and their bits

// The number of a pattern. `f64::from_bits` is not to be asked for a not-a-number, so one is made.
pub fn number_of(bits: u64) -> f64
    ensures { result ≡ of_bits binary64 bits }
{
    if bits % 0x8000_0000_0000_0000 > 0x7ff0_0000_0000_0000 {
        return f64::NAN;
    }
    f64::from_bits(bits)
}

// The pattern of a number. `f64::to_bits` is not to be asked for a not-a-number's.
pub fn pattern_of(x: f64) -> u64
    ensures { result ≡ to_bits binary64 x }
{
    if x.is_nan() {
        return 0x7ff8_0000_0000_0000;
    }
    x.to_bits()
}

// The number whose pattern stands in the eight.
pub fn f64_at(s: &[u8], at: usize) -> f64
    requires { at + 8 ≤ length s.now }
    ensures { result ≡ of_bits binary64 (le64 s.now at) }
{
    number_of(u64_at(s, at))
}

// As many numbers as out has places, one after another from byte at on.
// in: s, at least at + 8 bytes for each place of out; out: out, any on entry
pub fn numbers_at(s: &[u8], at: usize, out: &mut [f64])
    requires { at + 8 * length out.old ≤ length s.now }
    ensures { out.new ≡ numbers_of s.now at (length out.old) }
{
    for (i, x) in out.iter_mut().enumerate() {
        *x = f64_at(s, at + 8 * i);
    }
}
