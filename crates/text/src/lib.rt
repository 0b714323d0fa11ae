// A text that grows at its end, in room of its own: bytes, words, decimal numbers and hexadecimal patterns.
// A reader may rely on each contract: a clause sees a text as the list of its bytes, and what is pushed stands after
// what was there. A caller owes room for the longest piece of the kind.
#![tactic(auto)]

ghost use Rattle.std.specs.Prelude.{◌+◌, ◌≤◌, ◌<◌, ◌≡◌, List, ℕ, [], ◌∷◌, ◌++◌, length, take};
ghost use Rattle.text.specs.Text.{digit_of, decimal_of, hex_from, hex_of};

use std::marker::Model;

// At most ROOM bytes. (Not a Vec: there is no heap.)
#[derive(Drop)]
pub struct Text<const ROOM: usize> {
    bytes: [u8; ROOM],
    len: usize,
}

impl<const ROOM: usize> Model for Text<ROOM> {
    ghost Value = { List ℕ };

    ghost view = { λ t. take t.len t.bytes };

    ghost invariant = { λ t. t.len ≤ ROOM };
}

impl<const ROOM: usize> Text<ROOM> {
    // One with nothing in it.
    pub fn new() -> Text<ROOM>
        ensures { result ≡ [] }
    {
        Text {
            bytes: [0; ROOM],
            len: 0,
        }
    }

    // Its bytes.
    pub fn as_slice(&self) -> &[u8]
        ensures value { result.now ≡ self.now }
        ensures upper_bound { length self.now ≤ ROOM }
    {
        &self.bytes[..self.len]
    }

    // One byte.
    pub fn push(&mut self, byte: u8)
        requires { length self.old < ROOM }
        ensures { self.new ≡ self.old ++ byte ∷ [] }
    {
        self.bytes[self.len] = byte;
        self.len += 1;
    }

    // The bytes of a word.
    pub fn push_word(&mut self, word: &[u8])
        requires { length self.old + length word.now ≤ ROOM }
        ensures { self.new ≡ self.old ++ word.now }
    {
        for byte in word {
            self.push(*byte);
        }
    }

    // n in decimal: what n / 10 is in decimal, then the last digit.
    pub fn push_decimal(&mut self, n: u64)
        requires { length self.old + 20 ≤ ROOM }
        ensures writes { self.new ≡ self.old ++ decimal_of n }
        ensures upper_bound { length self.new ≤ length self.old + 20 }
    {
        if n < 10 {
            self.push(digit(n));
        } else {
            self.push_decimal(n / 10);
            self.push(digit(n % 10));
        }
    }

    // The last `count` hexadecimal digits of n: those of n / 16, then the last one.
    fn push_digits(&mut self, n: u64, count: usize)
        requires { length self.old + count ≤ ROOM }
        ensures { self.new ≡ self.old ++ hex_from count n }
    {
        if count > 0 {
            self.push_digits(n / 16, count - 1);
            self.push(digit(n % 16));
        }
    }

    // A pattern as sixteen hexadecimal digits.
    pub fn push_hex(&mut self, pattern: u64)
        requires { length self.old + 16 ≤ ROOM }
        ensures writes { self.new ≡ self.old ++ hex_of pattern }
        ensures value { length self.new ≡ length self.old + 16 }
    {
        self.push_digits(pattern, 16);
    }
}

// The character of a digit below 16. (Not `char::from_digit`: its letters are small ones.)
fn digit(d: u64) -> u8
    requires { d < 16 }
    ensures { result ≡ digit_of d }
{
    if d < 10 {
        return 48 + d as u8;
    }
    55 + d as u8
}
