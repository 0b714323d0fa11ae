// A pivot's elimination by columns in the panel's own rows; the multipliers are kept for the rows below. It works in
// place: the later columns lose the pivot's part before its own columns become multipliers, so that no copy of them is
// needed. The contracts cite the model's row by row definitions, over all rows and columns of the panel: a reader may
// rely on every number that they do not change being left alone. (A 1x1 and a block have functions of their own: a 1x1
// skips a zero multiplier and a block never does, and their formulas are two in the definitions.)
#![tactic(auto)]

ghost use Rattle.std.specs.Prelude.{◌≡◌, ◌+◌, length};
ghost use Rattle.model.specs.Matrix.{view};
ghost use Rattle.model.specs.Head.{head_one, head_two, kept_one, kept_two};
ghost use Rattle.grid.specs.Rules.{column_of};
ghost use Rattle.eliminate.specs.Eliminate.{in_panel, applied_one, applied_two, SweepPre, OnePre, TwoPre};

use grid::columns;
use model::{Block, Elim, Frame};
use scalar::reciprocal;

mod kept;
mod sweeps;

// A pivot whose first column is k, and the rows that lose its part: rows lo up to hi of the panel.
#[derive(Clone, Copy)]
struct Sweep {
    at: Frame,
    k: usize,
    lo: usize,
    hi: usize,
}

// The sweep after a 1x1 at k, then column k itself.
fn apply_one(panel: &mut [f64], mult: &[f64], s: Sweep, d: f64)
    requires { SweepPre s s.k (length panel.old) (length mult.now) }
    ensures { view s.at.nrow panel.new
        ≡ applied_one (view s.at.nrow panel.old)
        (column_of (in_panel s.at.kb s.at.ke (view s.at.nb mult.now)) s.k) s.k s.at.ke s.lo s.hi
        d }
{
    sweeps::sweep_one(panel, mult, s);
    columns::scale(panel, s.at.nrow, s.k, s.lo, s.hi, reciprocal(d));
}

// The sweep after a block at k and k + 1, then its two columns.
fn apply_two(panel: &mut [f64], mult: &[f64], s: Sweep, b: Block)
    requires { SweepPre s (s.k + 1) (length panel.old) (length mult.now) }
    ensures { view s.at.nrow panel.new
        ≡ applied_two (view s.at.nrow panel.old)
        (column_of (in_panel s.at.kb s.at.ke (view s.at.nb mult.now)) s.k)
        (column_of (in_panel s.at.kb s.at.ke (view s.at.nb mult.now)) (s.k + 1)) s.k s.at.ke s.lo
        s.hi b }
{
    sweeps::sweep_two(panel, mult, s);
    let r = reciprocal(b.det);
    columns::combine(panel, s.at.nrow, s.k, s.lo, s.hi, b.d11, b.d21, b.d22, r);
}

// Rows k + 1 up to ke after a 1x1 pivot d at k, each up to its own column, and d on the diagonal; their multipliers are
// kept in column k of mult.
// in: d the pivot, lifted where the mode asks it / in and out: panel, mult
// origin: src/numeric/ldlt/bunch_kaufman.rs, fn ll_bk_panel_step
pub fn head_one(panel: &mut [f64], mult: &mut [f64], at: Frame, k: Elim, d: f64)
    requires { OnePre at.nrow at.ncol at.nb at.kb at.ke k.0 (length panel.old)
        (length mult.old) }
    ensures rows { view at.nrow panel.new
        ≡ head_one at.ke k.0 d (view at.nrow panel.old) }
    ensures kept { in_panel at.kb at.ke (view at.nb mult.new)
        ≡ kept_one at.ke k.0 d (view at.nrow panel.old)
        (in_panel at.kb at.ke (view at.nb mult.old)) }
{
    let here = k.0;
    kept::keep_one(mult, panel, at, here, here + 1, reciprocal(d));
    let rows = Sweep {
        at,
        k: here,
        lo: here + 1,
        hi: at.ke,
    };
    apply_one(panel, mult, rows, d);
    grid::put(panel, at.nrow, here, here, d);
}

// The multipliers of rows k + 2 up to ke, kept in columns k and k + 1 of mult.
fn keep_block(mult: &mut [f64], panel: &[f64], at: Frame, k: usize, b: Block)
    requires { TwoPre at.nrow at.ncol at.nb at.kb at.ke k (length panel.now) (length mult.old) }
    ensures { in_panel at.kb at.ke (view at.nb mult.new)
        ≡ kept_two at.ke k b (view at.nrow panel.now)
        (in_panel at.kb at.ke (view at.nb mult.old)) }
{
    let lo = k + 2;
    let r = reciprocal(b.det);
    kept::keep_two(mult, panel, at, k, k + 1, lo, b.d22, b.d21, r);
    kept::keep_two(mult, panel, at, k + 1, k, lo, b.d11, b.d21, r);
}

// Rows k + 2 up to ke after a block at k and k + 1, each up to its own column; their multipliers are kept in columns k
// and k + 1 of mult. The panel keeps the block's own numbers.
// in: b the block, lifted where the mode asks it / in and out: panel, mult
// origin: src/numeric/ldlt/bunch_kaufman.rs, fn ll_bk_panel_step
pub fn head_two(panel: &mut [f64], mult: &mut [f64], at: Frame, k: Elim, b: Block)
    requires { TwoPre at.nrow at.ncol at.nb at.kb at.ke k.0 (length panel.old)
        (length mult.old) }
    ensures rows { view at.nrow panel.new
        ≡ head_two at.ke k.0 b (view at.nrow panel.old) }
    ensures kept { in_panel at.kb at.ke (view at.nb mult.new)
        ≡ kept_two at.ke k.0 b (view at.nrow panel.old)
        (in_panel at.kb at.ke (view at.nb mult.old)) }
{
    let here = k.0;
    keep_block(mult, panel, at, here, b);
    let rows = Sweep {
        at,
        k: here,
        lo: here + 2,
        hi: at.ke,
    };
    apply_two(panel, mult, rows, b);
}
