// What the program prints for a stream of bytes: a factor call's outcome, or the refusal of the stream or of the call.
// A reader may rely on `respond` alone: what it answers is `printed` of specs/Lines.antt, whatever the bytes are. It
// asks nothing of its caller. The functions above it are a chain: run (the factor call, and crates/lines), with_buffers
// (its buffers), read_and_factor (its input), factored.
#![tactic(auto)]

ghost use Rattle.std.specs.Prelude.{◌*◌, ◌≤◌, ◌≡◌, [], length, Ok};
ghost use Rattle.model.specs.Factor.{work_length, factor_of, lent_in};
ghost use Rattle.record.specs.Record.{panel_length, fault_number, asked_of};
ghost use Rattle.answer.specs.Lines.{outcome_lines, cleared, printed};
ghost use Rattle.lines.specs.Lines.{refused_line};
ghost use Rattle.lines.specs.Lengths.{LinesPre};
ghost use Rattle.answer.specs.Lengths.{SizesPre};

use lines::Left;
use model::{LentBuffers, Settings};
use record::Fault;
use text::Text;

// The program's sizes: its panel width is at most COLUMNS too.
const COLUMNS: usize = 16;

const ROWS: usize = 64;

const NUMBERS: usize = ROWS * COLUMNS;

const WORK: usize = 3 * ROWS * (COLUMNS + 1) + COLUMNS * COLUMNS;

// Enough for the longest answer.
pub const ROOM: usize = 32768;

// The factor call, and what it says. (The text is lent here and below: given back by value, each function of the chain
// would have room for one of its own on the stack, and copy it.)
fn run(c: Settings, input: &[f64], b: &mut LentBuffers, out: &mut Text<ROOM>)
    requires lists { LinesPre c (length b.old.panel.now) (length b.old.d.now) (length b.old.sub.now)
        (length b.old.blocks.now) (length b.old.lifts.now) (length b.old.amounts.now)
        (length b.old.tests.now) (length b.old.order.now) (length b.old.marks.now) }
    requires empty { out.old ≡ [] }
    ensures { out.new ≡ outcome_lines c (factor_of c input.now (lent_in b.old)) }
{
    let answer = factor::factor(c, input, b);
    let panel = &mut *b.panel;
    let d = &mut *b.d;
    let sub = &mut *b.sub;
    let blocks = &mut *b.blocks;
    let lifts = &mut *b.lifts;
    let amounts = &mut *b.amounts;
    let tests = &mut *b.tests;
    let order = &mut *b.order;
    let marks = &mut *b.marks;
    let left = Left {
        c,
        panel,
        d,
        sub,
        blocks,
        lifts,
        amounts,
        tests,
        order,
        marks,
    };
    lines::put_said(answer, left, out);
}

// How many numbers the panel has.
fn panel_size(nrow: usize, ncol: usize) -> usize
    requires { (nrow ≤ 64) × (ncol ≤ 16) }
    ensures { (result ≡ nrow * ncol) × (result ≤ 1024) }
{
    nrow * ncol
}

// How many numbers the working buffer has.
fn work_size(nrow: usize, nb: usize) -> usize
    requires { (nrow ≤ 64) × (nb ≤ 16) }
    ensures { (result ≡ work_length nrow nb) × (result ≤ 3520) }
{
    3 * nrow * (nb + 1) + nb * nb
}

// The factor call with buffers of the stated lengths, which are parts of arrays of the program's sizes: there is no
// heap.
fn with_buffers(c: Settings, input: &[f64], out: &mut Text<ROOM>)
    requires sizes { SizesPre c }
    requires empty { out.old ≡ [] }
    ensures { out.new ≡ outcome_lines c (factor_of c input.now (cleared c)) }
{
    let mut panel = [0.0; NUMBERS];
    let mut d = [0.0; COLUMNS];
    let mut sub = [0.0; COLUMNS];
    let mut blocks = [0; COLUMNS];
    let mut lifts = [0; COLUMNS];
    let mut amounts = [0.0; COLUMNS];
    let mut tests = [0; COLUMNS];
    let mut order = [0; ROWS];
    let mut marks = [0; ROWS];
    let mut work = [0.0; WORK];
    let ncol = c.ncol;
    let nrow = c.nrow;
    let numbers = panel_size(nrow, ncol);
    let tail = nrow.saturating_sub(ncol);
    let size = work_size(nrow, c.nb);
    let mut b = LentBuffers {
        panel: &mut panel[..numbers],
        d: &mut d[..ncol],
        sub: &mut sub[..ncol],
        blocks: &mut blocks[..ncol],
        lifts: &mut lifts[..ncol],
        amounts: &mut amounts[..ncol],
        tests: &mut tests[..ncol],
        order: &mut order[..nrow],
        marks: &mut marks[..tail],
        work: &mut work[..size],
    };
    run(c, input, &mut b, out);
}

// The panel of a stream that asks for a factor, read into its place and factored.
fn read_and_factor(c: Settings, stream: &[u8], input: &mut [f64], out: &mut Text<ROOM>)
    requires stream_value { asked_of stream.now ≡ Ok c }
    requires input_len { length input.old ≡ panel_length c }
    requires empty { out.old ≡ [] }
    ensures { out.new ≡ printed stream.now }
{
    little_endian::numbers_at(stream, 30, input);
    with_buffers(c, input, out);
}

// A stream that asks for a factor.
fn factored(c: Settings, stream: &[u8], out: &mut Text<ROOM>)
    requires stream_value { asked_of stream.now ≡ Ok c }
    requires empty { out.old ≡ [] }
    ensures { out.new ≡ printed stream.now }
{
    let mut input = [0.0; NUMBERS];
    let numbers = panel_size(c.nrow, c.ncol);
    read_and_factor(c, stream, &mut input[..numbers], out);
}

// A stream that is turned away, with no place named.
fn refused(fault: Fault, out: &mut Text<ROOM>)
    requires { out.old ≡ [] }
    ensures { out.new ≡ refused_line (fault_number fault) 0 0 }
{
    lines::put_refused(fault.number(), 0, 0, out);
}

// What is printed for a stream, in a text with nothing in it.
fn put_printed(stream: &[u8], out: &mut Text<ROOM>)
    requires { out.old ≡ [] }
    ensures { out.new ≡ printed stream.now }
{
    match record::asked_by(stream) {
        Ok(c) => factored(c, stream, out),
        Err(fault) => refused(fault, out),
    }
}

// What is printed for a stream.
// in: stream, any bytes
pub fn respond(stream: &[u8]) -> Text<ROOM>
    ensures { result ≡ printed stream.now }
{
    let mut out = Text::new();
    put_printed(stream, &mut out);
    out
}
