// The file of answers: numbers and lists read from it, and buffers held to what it has next. It is read by chunks of
// 4,096 bytes, until it ends or cannot be read. A list fills the first places of a room. Ones stand for the bits that
// the file lacks, but for block bytes, which are 0 then.
ghost use Rattle.std.specs.Prelude.{◌≤◌, length};

use std::fs::File;
use std::io::Read;

const CHUNK: usize = 4096;

// A byte that the file lacks.
const LACKING: u8 = 0xff;

// ---- bytes, read

// Reads until the place is full, the file ends or a read fails, and answers how many bytes stand at its start.
// (A `while`, since a read brings as many bytes as it likes: no iterator takes such steps. node's promises more, of any
// reader, and says which bytes came before a failure.)
pub(crate) fn read_full(file: &mut File, place: &mut [u8]) -> usize
    ensures { result ≤ length place.new }
{
    let mut done = 0;
    while done < place.len() {
        match file.read(&mut place[done..]) {
            Ok(0) => return done,
            Ok(n) => done += n,
            Err(_) => return done,
        }
    }
    done
}

// The file, and the chunk of it that was read last, whose bytes from `at` up to `end` are still to come. A chunk that is
// not full is the last: nothing is read after it, however many bytes are asked for.
#[derive(Drop)]
pub(crate) struct Answers {
    file: File,
    chunk: [u8; CHUNK],
    at: usize,
    end: usize,
    last: bool,
    ghost inside: { (at ≤ end) × (end ≤ 4096) },
}

impl Answers {
    pub(crate) fn new(file: File) -> Answers {
        Answers {
            file,
            chunk: [LACKING; CHUNK],
            at: 0,
            end: 0,
            last: false,
        }
    }

    fn next_chunk(&mut self) {
        let end = read_full(&mut self.file, &mut self.chunk);
        self.at = 0;
        self.end = end;
        self.last = end < CHUNK;
    }

    // The next byte, if the file has one.
    fn next_byte(&mut self) -> Option<u8> {
        if self.at == self.end && !self.last {
            self.next_chunk();
        }
        if self.at == self.end {
            return None;
        }
        let byte = self.chunk[self.at];
        self.at += 1;
        Some(byte)
    }

    pub(crate) fn byte(&mut self) -> u8 {
        self.next_byte().unwrap_or(LACKING)
    }

    pub(crate) fn block_byte(&mut self) -> u8 {
        self.next_byte().unwrap_or(0)
    }

    // Whether no byte is left.
    fn has_ended(&self) -> bool {
        self.last && self.at == self.end
    }

    // (Where none is left that is seen once, and not at each byte: lists of a damaged file may be long.)
    pub(crate) fn bytes<const N: usize>(&mut self) -> [u8; N] {
        let mut bytes = [LACKING; N];
        if self.has_ended() {
            return bytes;
        }
        for byte in &mut bytes {
            *byte = self.byte();
        }
        bytes
    }

    pub(crate) fn count(&mut self) -> usize {
        usize::from(u16::from_le_bytes(self.bytes()))
    }

    pub(crate) fn global_row(&mut self) -> u32 {
        u32::from_le_bytes(self.bytes())
    }

    // A number of LAPACK's list of pivots.
    pub(crate) fn list_number(&mut self) -> i32 {
        i32::from_le_bytes(self.bytes())
    }

    pub(crate) fn bits(&mut self) -> u64 {
        u64::from_le_bytes(self.bytes())
    }

    pub(crate) fn number(&mut self) -> f64 {
        little_endian::number_of(self.bits())
    }
}

// ---- lists, read

// The first n places of a room, or all that it has.
pub(crate) fn first_of<'a, T>(n: usize, room: &'a mut [T]) -> &'a mut [T] {
    let most = n.min(room.len());
    &mut room[..most]
}

// A list of n, each as `next` reads it.
pub(crate) fn list<'a, T: Drop, F: Fn(&mut Answers) -> T>(
    answers: &mut Answers,
    n: usize,
    room: &'a mut [T],
    next: F,
) -> &'a mut [T]
    requires { F.IsAlwaysCallable next }
{
    let list = first_of(n, room);
    for x in list.iter_mut() {
        *x = next(answers);
    }
    list
}

// ---- buffers

// What a call is to leave in a buffer: what the file has next, zeros, or what it held.
#[derive(Clone, Copy)]
pub(crate) enum Left {
    Recorded,
    Zeros,
    Held,
}

// What a lent buffer is made of. Two of one kind are the same if their bits are.
pub(crate) trait Lent: Copy {
    // What a buffer holds before a call: the byte 0x42 throughout.
    const HELD: Self;

    fn bits(self) -> u64;

    // The bits that the file has next.
    fn recorded(answers: &mut Answers) -> u64;
}

impl Lent for u8 {
    const HELD: u8 = 0x42;

    fn bits(self) -> u64 {
        u64::from(self)
    }

    fn recorded(answers: &mut Answers) -> u64 {
        u64::from(answers.byte())
    }
}

// A count, which the file has in two bytes.
impl Lent for usize {
    const HELD: usize = 0x4242;

    fn bits(self) -> u64 {
        self as u64
    }

    fn recorded(answers: &mut Answers) -> u64 {
        answers.count() as u64
    }
}

// A number of LAPACK's list of pivots.
impl Lent for i32 {
    const HELD: i32 = 0x42424242;

    fn bits(self) -> u64 {
        u64::from(u32::from_le_bytes(self.to_le_bytes()))
    }

    fn recorded(answers: &mut Answers) -> u64 {
        answers.list_number().bits()
    }
}

// Of not-a-numbers there is one pattern.
impl Lent for f64 {
    const HELD: f64 = 156842099844.51764;

    fn bits(self) -> u64 {
        little_endian::pattern_of(self)
    }

    fn recorded(answers: &mut Answers) -> u64 {
        answers.bits()
    }
}

// Whether a buffer holds what is to be left. All that is recorded of it is read, whatever it holds.
pub(crate) fn holds<T: Lent>(answers: &mut Answers, left: Left, buffer: &[T]) -> bool {
    let mut same = true;
    for x in buffer {
        let wanted = match left {
            Left::Recorded => T::recorded(answers),
            Left::Zeros => 0,
            Left::Held => T::HELD.bits(),
        };
        same &= x.bits() == wanted;
    }
    same
}
