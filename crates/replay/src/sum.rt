// Whether a file of answers is as it was recorded: its first bytes, and the Adler-32 (RFC 1950) of what follows them.
ghost use Rattle.std.specs.Prelude.{◌<◌};

use crate::file;
use std::fs;
use std::fs::File;
use std::rt::Files;

const MODULUS: u32 = 65521;

// The two running sums.
#[derive(Clone, Copy)]
struct Sums {
    a: u32,
    b: u32,
    ghost below: { (a < 65521) × (b < 65521) },
}

impl Sums {
    // Those of no bytes.
    fn of_none() -> Sums {
        Sums { a: 1, b: 0 }
    }

    // The sums with one more byte.
    fn with(self, byte: u8) -> Sums {
        let a = (self.a + u32::from(byte)) % MODULUS;
        Sums {
            a,
            b: (self.b + a) % MODULUS,
        }
    }

    fn with_all(self, bytes: &[u8]) -> Sums {
        let mut sums = self;
        for byte in bytes {
            sums = sums.with(*byte);
        }
        sums
    }

    fn checksum(self) -> u32 {
        self.b * 65536 + self.a
    }
}

// The sums with what one more read brought, if it brought anything.
fn read_more(answers: &mut File, sums: Sums) -> Option<Sums> {
    let mut chunk = [0u8; 65536];
    match file::read_full(answers, &mut chunk) {
        0 => None,
        n => Some(sums.with_all(&chunk[..n])),
    }
}

// The sum of the rest of a file. Nothing says that a file ends, and a proved loop has to: its turns run out after 4 GB.
fn sum_rest(answers: &mut File) -> Option<u32> {
    let mut sums = Sums::of_none();
    for _ in 0..65536 {
        match read_more(answers, sums) {
            Some(more) => sums = more,
            None => return Some(sums.checksum()),
        }
    }
    None
}

// Whether the file that was opened is so, from its first byte on.
fn recorded(answers: &mut File) -> bool {
    let mut head = [0u8; 8];
    let mut sum = [0u8; 4];
    file::read_full(answers, &mut head);
    file::read_full(answers, &mut sum);
    let rest = sum_rest(answers);
    (head == *b"replay 1") & (rest == Some(u32::from_le_bytes(sum)))
}

// Whether the file of that name is so; one that cannot be opened is not.
pub(crate) fn intact<F: Files<File = File>>(files: &F, path: &str) -> bool {
    match fs::open(files, path) {
        Ok(mut answers) => recorded(&mut answers),
        Err(_) => false,
    }
}
