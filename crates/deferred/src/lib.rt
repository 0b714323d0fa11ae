// The deferred update: what a finished panel does to the columns after it. L.D is formed first; then the later columns
// lose their sums, two columns at a time. A reader may rely on the contract of deferred_update: every rounding is the
// definition's.
#![tactic(auto)]

ghost use Rattle.std.specs.Prelude.{◌≡◌, ◌+◌, ◌-◌, ◌<◌, ◌≤◌, min, max, length};
ghost use Rattle.model.specs.Matrix.{view, vec, with_column};
ghost use Rattle.model.specs.Step.{diagonals_in};
ghost use Rattle.kernels.specs.Rules.{behind, less_each};
ghost use Rattle.grid.specs.Rules.{column_of};
ghost use Rattle.whole.specs.Whole.{deferred_rows};
ghost use Rattle.products.specs.Products.{with_products};
ghost use Rattle.deferred.specs.Deferred.{DeferredPre};
ghost use Rattle.deferred.specs.Columns.{part_deferred, LosePre, PairPre, ColumnsPre, RowsPre};

use model::{DiagonalLists, Frame};
use sums::Terms;

// How many rows are worked at a time: their sums are local arrays, and their part of L.D stays in the cache for all
// later columns.
const PART: usize = 256;

// Of column j the rows lo up to hi that stand on its diagonal or below lose s, whose first number is row lo's.
fn lose(panel: &mut [f64], nrow: usize, j: usize, lo: usize, hi: usize, s: &[f64])
    requires { LosePre nrow j lo hi (length panel.old) (length s.now) }
    ensures { view nrow panel.new
        ≡ with_column (view nrow panel.old) j (max lo j) hi
        (less_each (column_of (view nrow panel.old) j) (behind lo (vec s.now))) }
{
    let from = lo.max(j);
    let start = grid::column_start(nrow, j);
    let a = from + start;
    let b = hi + start;
    let p = from - lo;
    let q = hi - lo;
    kernels::less_each(&mut panel[a..b], &s[p..q], hi - from);
}

// The rows of `at` in its columns c and e, each from its diagonal down, lose their sums. Both sums are there before
// either column changes. Where e is c there is one column.
// work: x and y, a number for each row, any on entry.
fn defer_two(panel: &mut [f64], g: &[f64], x: &mut [f64], y: &mut [f64], at: Terms)
    requires { PairPre at (length x.old) (length y.old) (length g.now) (length panel.old) }
    ensures { view at.nrow panel.new
        ≡ part_deferred (view at.nrow panel.old) (view at.nrow g.now) at.kb at.w
        at.c (at.e + 1) at.lo (at.lo + at.n) }
{
    sums::both_sums(x, y, g, panel, at);
    let hi = at.lo + at.n;
    lose(panel, at.nrow, at.c, at.lo, hi, x);
    if at.e == at.c {
        return;
    }
    lose(panel, at.nrow, at.e, at.lo, hi, y);
}

// Column c and, if it stands before end, the next lose their sums in rows lo up to hi. The answer is the first column
// left.
// work: x and y, as above.
fn defer_next(
    panel: &mut [f64],
    g: &[f64],
    x: &mut [f64],
    y: &mut [f64],
    at: Frame,
    c: usize,
    end: usize,
    lo: usize,
    hi: usize,
) -> usize
    requires columns_pre { ColumnsPre at.nrow at.ncol at.kb at.ke (length g.now) (length panel.old) }
    requires rows_pre { RowsPre at.nrow lo hi (length x.old) }
    requires rows_pre_2 { RowsPre at.nrow lo hi (length y.old) }
    requires ke_le_c { (at.ke ≤ c) × (c < end) × (end ≡ min at.ncol hi) }
    ensures panel_after { view at.nrow panel.new
        ≡ part_deferred (view at.nrow panel.old) (view at.nrow g.now) at.kb
        (at.ke - at.kb) c result lo hi }
    ensures value { result ≡ min (c + 2) end }
{
    let nrow = at.nrow;
    let kb = at.kb;
    let w = at.ke - kb;
    let from = lo.max(c);
    let e = (c + 1).min(end - 1);
    let n = hi - from;
    let terms = Terms {
        nrow,
        c,
        e,
        kb,
        w,
        lo: from,
        n,
    };
    defer_two(panel, g, x, y, terms);
    e + 1
}

// Rows lo up to hi of the columns from ke on, each from its diagonal down, lose their sums.
fn defer_rows(panel: &mut [f64], g: &[f64], at: Frame, lo: usize, hi: usize)
    requires columns_pre { ColumnsPre at.nrow at.ncol at.kb at.ke (length g.now) (length panel.old) }
    requires rows_pre { RowsPre at.nrow lo hi 256 }
    ensures { view at.nrow panel.new
        ≡ part_deferred (view at.nrow panel.old) (view at.nrow g.now) at.kb
        (at.ke - at.kb) at.ke at.ncol lo hi }
{
    let mut x = [0.0; PART];
    let mut y = [0.0; PART];
    let end = at.ncol.min(hi);
    let mut c = at.ke;
    // the next column is the answer of each turn: over a `step_by` the compiler works the ends of a turn out several
    // times, 2 in 100 more instructions on panels of 16 columns, 8 on narrower ones
    while c < end {
        c = defer_next(panel, g, &mut x, &mut y, at, c, end, lo, hi);
    }
}

// The columns from ke on, each from its diagonal down, lose their sums, a part of the rows at a time. A part begins
// where the one before it ended: over a `step_by` 9 in 100 more instructions on panels of 4 columns, for the reason said
// in defer_rows.
fn defer_columns(panel: &mut [f64], g: &[f64], at: Frame)
    requires { ColumnsPre at.nrow at.ncol at.kb at.ke (length g.now) (length panel.old) }
    ensures { view at.nrow panel.new
        ≡ part_deferred (view at.nrow panel.old) (view at.nrow g.now) at.kb
        (at.ke - at.kb) at.ke at.ncol at.ke at.nrow }
{
    let mut lo = at.ke;
    while lo < at.nrow {
        let hi = lo + PART.min(at.nrow - lo);
        defer_rows(panel, g, at, lo, hi);
        lo = hi;
    }
}

// Every later x (row ≥ column ≥ ke) becomes x − acc: acc from +0.0 over the panel's columns kb to ke in their order,
// each term L.D of x's row times L of x's column's row.
// work: g (ke − kb)·nrow numbers, any on entry; L.D of the rows from ke on afterwards.
// origin: src/numeric/ldlt/bunch_kaufman.rs, fn ll_cdiv_emit
// (Not inlined: in one function with the panel's steps the compiler keeps these loops' variables on the stack.)
#[inline(never)]
pub fn deferred_update(panel: &mut [f64], x: DiagonalLists, g: &mut [f64], at: Frame)
    requires { DeferredPre at.nrow at.ncol at.kb at.ke (length g.old) (length panel.old)
        (length x.d.now) (length x.sub.now) x.blocks.now }
    ensures panel_after { view at.nrow panel.new
        ≡ deferred_rows at.nrow at.ncol (diagonals_in x.entry) at.kb at.ke (view at.nrow panel.old) }
    ensures g_after { view at.nrow g.new
        ≡ with_products (view at.nrow g.old) (diagonals_in x.entry)
        (view at.nrow panel.old) at.kb at.ke at.nrow (at.ke - at.kb) }
{
    products::products(g, panel, x, at.nrow, at.kb, at.ke);
    defer_columns(panel, g, at);
}
