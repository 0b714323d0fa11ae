// What is noted of a pivot in the record of pivots: its numbers and block byte, its lift, its test number, its
// exchanges. `note` leaves exactly `noted` of crates/model/specs/Head.antt.
// origin: src/numeric/ldlt/bunch_kaufman.rs, fn ll_bk_panel_step
#![tactic(auto)]

ghost use Rattle.std.specs.Prelude.{◌≡◌, length, ◌<◌, slice_set};
ghost use Rattle.model.specs.Sizes.{most_columns};
ghost use Rattle.model.specs.Matrix.{places, swapped};
ghost use Rattle.model.specs.Choice.{test_number};
ghost use Rattle.model.specs.Step.{is_block, recorded_in, SameRecord};
ghost use Rattle.model.specs.Head.{last_of, noted};
ghost use Rattle.notes.specs.Notes.{ColumnsPre, NotePre};

use model::{Diagonal, Elim, LocalRow, Pivot, PivotRecord, PivotTest};

// y at e, then x at k: what belongs to a pivot's two columns, where e is its last. A 1x1 keeps x.
fn put_both<T: Copy>(v: &mut [T], k: Elim, e: Elim, x: T, y: T)
    requires { ColumnsPre k.0 e.0 (length v.old) }
    ensures { v.new ≡ slice_set (slice_set v.old e.0 y) k.0 x }
{
    v[e.0] = y;
    v[k.0] = x;
}

// The exchange of position e and of the position where row kp of the panel stands. Where the two are one, as they
// mostly are, nothing is written: what reads the place next would wait for it.
fn put_swap(order: &mut [usize], e: Elim, kp: LocalRow)
    requires { ColumnsPre e.0 kp.0 (length order.old) }
    ensures { places order.new ≡ swapped (places order.old) e.0 kp.0 }
{
    if e.0 != kp.0 {
        order.swap(e.0, kp.0);
    }
}

// The number that a caller is told of a test.
fn test_number(test: PivotTest) -> u8
    ensures { result ≡ test_number test }
{
    match test {
        PivotTest::ZeroColumn => 0,
        PivotTest::OwnDiagonal => 1,
        PivotTest::RowTest => 2,
        PivotTest::ExchangedDiagonal => 3,
        PivotTest::Block => 4,
    }
}

// The last column of a pivot at k.
pub fn last_column(k: Elim, x: Diagonal) -> Elim
    requires { k.0 < most_columns }
    ensures { result.0 ≡ last_of k.0 (is_block x) }
{
    diagonal::last_column(k, diagonal::is_block(x))
}

// Notes the pivot v in columns k to e: in D, in the partners, in what the caller is told. Its exchanges are k with p,
// then e with kp.
pub fn note(r: &mut PivotRecord, k: Elim, e: Elim, v: Pivot)
    requires { NotePre k.0 e.0 v.chosen.p.0 v.chosen.kp.0 r.old }
    ensures same { SameRecord r.old r.new }
    ensures value { recorded_in r.new ≡ noted (recorded_in r.old) k.0 e.0 v }
{
    let d = &mut *r.d;
    let sub = &mut *r.sub;
    let blocks = &mut *r.blocks;
    let partners = &mut *r.partners;
    let lifts = &mut *r.lifts;
    let amounts = &mut *r.amounts;
    let tests = &mut *r.tests;
    let order = &mut *r.order;
    let x = v.diagonal;
    let block = u8::from(diagonal::is_block(x));
    let lifted = u8::from(v.lift.is_some());
    let amount = v.lift.unwrap_or(0.0);
    let test = test_number(v.chosen.test);
    put_both(d, k, e, diagonal::first_number(x), diagonal::last_number(x));
    put_both(sub, k, e, diagonal::under_number(x), 0.0);
    put_both(blocks, k, e, block, 0);
    put_both(partners, k, e, v.chosen.kp.0 as u16, v.chosen.p.0 as u16);
    put_both(lifts, k, e, lifted, lifted);
    put_both(amounts, k, e, amount, amount);
    put_both(tests, k, e, test, test);
    put_swap(order, k, v.chosen.p);
    put_swap(order, e, v.chosen.kp);
}
