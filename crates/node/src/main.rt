// The program `node`: one node's records from standard input, its factor or its refusal to standard output.
// What it writes is a function of what it reads, `answer::respond`, which answers any bytes; `run` says so of any
// reader and any writer. A stream that goes on past the longest good one asks what its first LONGEST + 1 bytes ask
// (`asked-prefix` of crate record), so no more is read. Where a read fails, what came before it is the stream.
// Where standard output takes nothing more, one line on standard error says so, the only one that ever stands there.
#![tactic(auto)]

ghost use Rattle.std.specs.Prelude.{◌≤◌, ◌<◌, IsTrue, length, take};
ghost use Rattle.std.specs.Io.KnownBytes.{Consumes, Appends, IsAtEnd};
ghost use Rattle.node.specs.Run.{AnswersPart, AnswersAll};

use record::LONGEST;
use std::io::{Read, Write};
use text::Text;

// What was read into a place: how many bytes stand at its start, and whether no read failed. (No Result: the bytes
// count after a failure too.)
#[derive(Clone, Copy)]
struct Filled {
    bytes: usize,
    sound: bool,
}

// Reads until the place is full, the input ends or a read fails. (A `while`, since a read brings as many bytes as it
// likes: no iterator takes such steps.)
fn read_full<R: Read>(reader: &mut R, place: &mut [u8]) -> Filled
    ensures in_bounds { result.bytes ≤ length place.new }
    ensures bytes { Consumes (R.remaining reader.old) (R.remaining reader.new) (take result.bytes place.new) }
    ensures end { IsTrue result.sound → result.bytes < length place.new → IsAtEnd (R.remaining reader.new) }
{
    let mut done = 0;
    while done < place.len() {
        match reader.read(&mut place[done..]) {
            Ok(0) => {
                return Filled {
                    bytes: done,
                    sound: true,
                };
            }
            Ok(n) => done += n,
            Err(_) => {
                return Filled {
                    bytes: done,
                    sound: false,
                };
            }
        }
    }
    Filled {
        bytes: done,
        sound: true,
    }
}

// Writes the text, and answers whether all of it was taken.
fn print<W: Write, const ROOM: usize>(writer: &mut W, text: &Text<ROOM>) -> bool
    ensures { IsTrue result → Appends (W.contents writer.old) (W.contents writer.new) text.now }
{
    writer.write_all(text.as_slice()).is_ok()
}

// What a run came to: whether no read failed, and whether all that is printed was taken. (No Result: either may be so
// without the other.)
#[derive(Clone, Copy)]
struct Ran {
    sound: bool,
    taken: bool,
}

// Reads a stream and writes what is printed for it.
fn run<R: Read, W: Write>(reader: &mut R, writer: &mut W) -> Ran
    ensures part { AnswersPart (R.remaining reader.old) (R.remaining reader.new)
        (W.contents writer.old) (W.contents writer.new) result }
    ensures all { AnswersAll (R.remaining reader.old) (W.contents writer.old) (W.contents writer.new) result }
{
    // as long as any stream that is answered, and one byte more: there is no heap
    let mut stream = [0u8; LONGEST + 1];
    let read = read_full(reader, &mut stream);
    let text = answer::respond(&stream[..read.bytes]);
    Ran {
        sound: read.sound,
        taken: print(writer, &text),
    }
}

fn main(rt: HostRuntime) {
    let ran = run(&mut rt.stdin(), &mut rt.stdout());
    if !ran.taken {
        let _ = eprintln!(rt; "node: standard output could not be written");
    }
}
