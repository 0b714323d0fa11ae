// The lines that the program prints, each pushed to a text.
// A reader may rely on each contract: the text is what it was with the line of specs/Lines.antt after it. A caller owes
// room for the longest line of its kind: a space and a number take at most 21 bytes in decimal and 17 in hexadecimal.
#![tactic(auto)]

ghost use Rattle.std.specs.Prelude.{◌+◌, ◌*◌, ◌≤◌, ◌<◌, ◌≡◌, ◌++◌, length};
ghost use Rattle.model.specs.Answer.{factored_says};
ghost use Rattle.lines.specs.Lines.{field, number, three, each, refused_line, accepted_line, inertia_line};
ghost use Rattle.lines.specs.Lines.{order_field, order_line, entry_field, mark_field};
ghost use Rattle.lines.specs.Lines.{accepted_lines, said_lines};
ghost use Rattle.lines.specs.Left.{left_in, pivot_in, row_in};

mod left;

pub use left::{Left, Pivots, Rows};
use model::{Refusal, Report, Tally};
use refusal::NumberAndPlace;
use text::Text;

const SPACE: u8 = b' ';

const NEWLINE: u8 = b'\n';

// ---- parts of a line

// A space and a number in decimal.
#[tactic(auto, unfolding(crate::specs::Lines::field))]
fn put_field<const ROOM: usize>(n: usize, out: &mut Text<ROOM>)
    requires { length out.old + 21 ≤ ROOM }
    ensures writes { out.new ≡ out.old ++ field n }
    ensures upper_bound { length out.new ≤ length out.old + 21 }
{
    out.push(SPACE);
    out.push_decimal(n as u64);
}

// A space and a number's bits.
#[tactic(auto, unfolding(crate::specs::Lines::number))]
fn put_number<const ROOM: usize>(x: f64, out: &mut Text<ROOM>)
    requires { length out.old + 17 ≤ ROOM }
    ensures writes { out.new ≡ out.old ++ number x }
    ensures value { length out.new ≡ length out.old + 17 }
{
    out.push(SPACE);
    out.push_hex(little_endian::pattern_of(x));
}

// Three numbers in decimal.
#[tactic(auto, unfolding(crate::specs::Lines::three))]
fn put_three<const ROOM: usize>(x: usize, y: usize, z: usize, out: &mut Text<ROOM>)
    requires { length out.old + 63 ≤ ROOM }
    ensures writes { out.new ≡ out.old ++ three x y z }
    ensures upper_bound { length out.new ≤ length out.old + 63 }
{
    put_field(x, out);
    put_field(y, out);
    put_field(z, out);
}

// ---- refused, accepted, inertia

// A refusal's line: its number and place.
#[tactic(auto, unfolding(crate::specs::Lines::refused_line))]
pub fn put_refused<const ROOM: usize>(number: usize, a: usize, b: usize, out: &mut Text<ROOM>)
    requires { length out.old + 71 ≤ ROOM }
    ensures { out.new ≡ out.old ++ refused_line number a b }
{
    out.push_word(b"refused");
    put_three(number, a, b, out);
    out.push(NEWLINE);
}

// The first line of an accepted call: its rounds.
pub fn put_accepted<const ROOM: usize>(rounds: usize, out: &mut Text<ROOM>)
    requires { length out.old + 37 ≤ ROOM }
    ensures writes { out.new ≡ out.old ++ accepted_line rounds }
    ensures upper_bound { length out.new ≤ length out.old + 37 }
{
    out.push_word(b"accepted rounds");
    put_field(rounds, out);
    out.push(NEWLINE);
}

// The counts.
#[tactic(auto, unfolding(crate::specs::Lines::inertia_line))]
pub fn put_inertia<const ROOM: usize>(t: Tally, out: &mut Text<ROOM>)
    requires { length out.old + 71 ≤ ROOM }
    ensures writes { out.new ≡ out.old ++ inertia_line t }
    ensures upper_bound { length out.new ≤ length out.old + 71 }
{
    out.push_word(b"inertia");
    put_three(t.positive, t.negative, t.zero, out);
    out.push(NEWLINE);
}

// ---- order

// The order's places.
fn put_places<const ROOM: usize>(order: &[usize], out: &mut Text<ROOM>)
    requires { length out.old + 21 * length order.now ≤ ROOM }
    ensures writes { out.new ≡ out.old ++ each (order_field order.now) (length order.now) }
    ensures upper_bound { length out.new ≤ length out.old + 21 * length order.now }
{
    for place in order {
        put_field(*place, out);
    }
}

// The order's line.
#[tactic(auto, unfolding(crate::specs::Lines::order_line))]
pub fn put_order<const ROOM: usize>(order: &[usize], out: &mut Text<ROOM>)
    requires { length out.old + 6 + 21 * length order.now ≤ ROOM }
    ensures writes { out.new ≡ out.old ++ order_line order.now }
    ensures upper_bound { length out.new ≤ length out.old + 6 + 21 * length order.now }
{
    out.push_word(b"order");
    put_places(order, out);
    out.push(NEWLINE);
}

// ---- pivots

// Position k, in at most 5 + 4·21 + 3·17 + 1 bytes.
fn put_pivot<const ROOM: usize>(p: Pivots, k: usize, out: &mut Text<ROOM>)
    requires place { k < length p.d.now }
    requires room { length out.old + 141 ≤ ROOM }
    ensures writes { out.new ≡ out.old ++ pivot_in p.entry k }
    ensures upper_bound { length out.new ≤ length out.old + 141 }
{
    out.push_word(b"pivot");
    put_field(k, out);
    put_field(usize::from(p.blocks[k]), out);
    put_number(p.d[k], out);
    put_number(p.sub[k], out);
    put_field(usize::from(p.lifts[k]), out);
    put_number(p.amounts[k], out);
    put_field(usize::from(p.tests[k]), out);
    out.push(NEWLINE);
}

// A line for each position.
pub fn put_pivots<const ROOM: usize>(p: Pivots, out: &mut Text<ROOM>)
    requires { length out.old + 141 * length p.d.now ≤ ROOM }
    ensures writes { out.new ≡ out.old ++ each (pivot_in p.entry) (length p.entry.d.now) }
    ensures upper_bound { length out.new ≤ length out.old + 141 * length p.entry.d.now }
{
    for k in 0..p.d.len() {
        put_pivot(p, k, out);
    }
}

// ---- rows

// Row i's numbers.
fn put_entries<const ROOM: usize>(r: Rows, i: usize, out: &mut Text<ROOM>)
    requires row { i < r.nrow }
    requires room { length out.old + 17 * r.ncol ≤ ROOM }
    ensures writes { out.new ≡ out.old ++ each (entry_field r.entry.nrow r.entry.panel.now i) r.entry.ncol }
    ensures value { length out.new ≡ length out.old + 17 * r.entry.ncol }
{
    for j in 0..r.ncol {
        put_number(grid::get(r.panel, r.nrow, i, j), out);
    }
}

// A tail row's mark.
#[tactic(auto, unfolding(crate::specs::Lines::mark_field))]
fn put_mark<const ROOM: usize>(r: Rows, i: usize, out: &mut Text<ROOM>)
    requires row { i < r.nrow }
    requires room { length out.old + 21 ≤ ROOM }
    ensures writes { out.new ≡ out.old ++ mark_field r.entry.ncol r.entry.marks.now i }
    ensures upper_bound { length out.new ≤ length out.old + 21 }
{
    if i >= r.ncol {
        put_field(usize::from(r.marks[i - r.ncol]), out);
    }
}

// Row i, in at most 3 + 21 + 16·17 + 21 + 1 bytes.
#[tactic(auto, unfolding(crate::specs::Lines::row_line))]
fn put_row<const ROOM: usize>(r: Rows, i: usize, out: &mut Text<ROOM>)
    requires row { i < r.nrow }
    requires room { length out.old + 318 ≤ ROOM }
    ensures writes { out.new ≡ out.old ++ row_in r.entry i }
    ensures upper_bound { length out.new ≤ length out.old + 318 }
{
    out.push_word(b"row");
    put_field(i, out);
    put_entries(r, i, out);
    put_mark(r, i, out);
    out.push(NEWLINE);
}

// A line for each row.
pub fn put_rows<const ROOM: usize>(r: Rows, out: &mut Text<ROOM>)
    requires { length out.old + 318 * r.nrow ≤ ROOM }
    ensures writes { out.new ≡ out.old ++ each (row_in r.entry) r.entry.nrow }
    ensures upper_bound { length out.new ≤ length out.old + 318 * r.entry.nrow }
{
    for i in 0..r.nrow {
        put_row(r, i, out);
    }
}

// ---- all lines of a factor call's answer

// The lines of an accepted call, in fewer than 24,100 bytes.
#[tactic(auto, unfolding(crate::specs::Lines::accepted_lines))]
fn put_factor<const ROOM: usize>(report: Report, left: Left, out: &mut Text<ROOM>)
    requires { length out.old + 24100 ≤ ROOM }
    ensures { out.new ≡ out.old ++ accepted_lines left.entry.c report (left_in left.entry) }
{
    let pivots = Pivots {
        d: left.d,
        sub: left.sub,
        blocks: left.blocks,
        lifts: left.lifts,
        amounts: left.amounts,
        tests: left.tests,
    };
    let rows = Rows {
        nrow: left.c.nrow,
        ncol: left.c.ncol,
        panel: left.panel,
        marks: left.marks,
    };
    put_accepted(report.rounds, out);
    put_order(left.order, out);
    put_pivots(pivots, out);
    put_inertia(report.inertia, out);
    put_rows(rows, out);
}

// What a factor call answered, with what it left.
pub fn put_said<const ROOM: usize>(
    answer: Result<Report, Refusal>,
    left: Left,
    out: &mut Text<ROOM>,
)
    requires { length out.old + 24100 ≤ ROOM }
    ensures { out.new ≡ out.old ++ said_lines (factored_says answer) left.entry.c (left_in left.entry) }
{
    match answer {
        Ok(report) => put_factor(report, left, out),
        Err(why) => {
            let n = NumberAndPlace::from(why);
            put_refused(n.number, n.a, n.b, out);
        }
    }
}
