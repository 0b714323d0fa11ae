// The steps of a finished panel on the rows below it: one pivot, or two one after the other, where each later column is
// passed once for both, and several columns in one pass where swept allows it. Of two pivots the second one's exchange
// is made first, and the first one's multipliers are then those of the rows as they stood. A reader may rely on the
// contracts of below_step and below_pair: they cite the model's steps, and leave every other number of the part alone.
#![tactic(auto)]

ghost use Rattle.std.specs.Prelude.{◌≡◌, ◌+◌, ◌<◌, ◌≤◌, length};
ghost use Rattle.std.specs.Int.{w64};
ghost use Rattle.std.proofs.Common.{Fits};
ghost use Rattle.model.specs.Matrix.{view, with_column, exchanged_place};
ghost use Rattle.model.specs.Step.{is_block, row_after_step};
ghost use Rattle.model.specs.Head.{last_of};
ghost use Rattle.grid.specs.Rules.{column_of, RowsPre};
ghost use Rattle.whole.specs.Whole.{below};
ghost use Rattle.less.specs.Less.{stepped, stepped_twice};
ghost use Rattle.swept.specs.Swept.{swept_first, swept_pair, PairPre};
ghost use Rattle.pairs.specs.Pairs.{step_of, pair_of, row_after_both, own_by, SweepPre, StepPre};

use diagonal::is_block;
use grid::columns;
use model::{Diagonal, Elim};
use scalar::reciprocal;
use swept::{Pair, Part, multiplier_before, several_next};

// A pivot as it was taken: its numbers, and the column that its last column was exchanged with.
#[derive(Clone, Copy)]
pub struct Taken {
    pub pivot: Diagonal,
    pub row: usize,
}

// Column j less the first pivot's part.
fn column_first(
    part: &mut [f64],
    mult: &[f64],
    block: bool,
    at: Part,
    f: usize,
    kq: usize,
    j: usize,
)
    requires { SweepPre block at j (j + 1) f kq (length part.old) (length mult.now) }
    ensures { view at.nrow part.new
        ≡ with_column (view at.nrow part.old) j 0 at.rows
        (stepped block (view at.nrow part.old) 0 j
        (view at.nb mult.now (exchanged_place f kq j) 0)
        (view at.nb mult.now (exchanged_place f kq j) 1)) }
{
    let m1 = multiplier_before(mult, at.nb, f, kq, j, 0);
    let m2 = multiplier_before(mult, at.nb, f, kq, j, 1);
    less::less_step(part, block, at.nrow, at.rows, j, [m1, m2]);
}

// Columns c up to e less the first pivot's part.
fn sweep_first(
    part: &mut [f64],
    mult: &[f64],
    block: bool,
    at: Part,
    c: usize,
    e: usize,
    f: usize,
    kq: usize,
)
    requires { SweepPre block at c e f kq (length part.old) (length mult.now) }
    ensures { view at.nrow part.new
        ≡ swept_first block (view at.nrow part.old) (view at.nb mult.now) f kq 0 c e
        0 at.rows }
{
    for j in c..e {
        column_first(part, mult, block, at, f, kq, j);
    }
}

// Column j less the first pivot's part and then the second's.
fn column_both(part: &mut [f64], mult: &[f64], pair: Pair, j: usize)
    requires pair_pre { PairPre pair (length part.old) (length mult.now) }
    requires f_lt_j { (pair.f < j) × (j < pair.at.columns) }
    ensures { view pair.at.nrow part.new
        ≡ with_column (view pair.at.nrow part.old) j 0 pair.at.rows
        (stepped_twice pair.block1 pair.block2 (view pair.at.nrow part.old) 0 pair.l j
        (view pair.at.nb mult.now (exchanged_place pair.f pair.kq j) 0)
        (view pair.at.nb mult.now (exchanged_place pair.f pair.kq j) 1)
        (view pair.at.nb mult.now j pair.l) (view pair.at.nb mult.now j (pair.l + 1))) }
{
    let nb = pair.at.nb;
    let m1 = multiplier_before(mult, nb, pair.f, pair.kq, j, 0);
    let m2 = multiplier_before(mult, nb, pair.f, pair.kq, j, 1);
    let m3 = grid::get(mult, nb, j, pair.l);
    let m4 = grid::get(mult, nb, j, pair.l + 1);
    let m = [m1, m2, m3, m4];
    less::less_both(
        part,
        pair.block1,
        pair.block2,
        pair.at.nrow,
        pair.at.rows,
        pair.l,
        j,
        m,
    );
}

// One turn: several columns from j on, or else column j. The answer is the first column left.
fn sweep_next(part: &mut [f64], mult: &[f64], pair: Pair, j: usize) -> usize
    requires pair_pre { PairPre pair (length part.old) (length mult.now) }
    requires f_lt_j { (pair.f < j) × (j < pair.at.columns) }
    ensures part_after { view pair.at.nrow part.new
        ≡ swept_pair pair (view pair.at.nrow part.old) (view pair.at.nb mult.now) j result }
    ensures lower_bound { (j < result) × (result ≤ pair.at.columns) }
{
    if let Some(next) = several_next(part, mult, pair, j) {
        return next;
    }
    column_both(part, mult, pair, j);
    j + 1
}

// The columns after both pivots, less their parts. A turn takes as many columns as the multipliers allow, so the loop
// has no step that a range could count.
fn sweep_both(part: &mut [f64], mult: &[f64], pair: Pair)
    requires { PairPre pair (length part.old) (length mult.now) }
    ensures { view pair.at.nrow part.new
        ≡ swept_pair pair (view pair.at.nrow part.old) (view pair.at.nb mult.now) (pair.f + 1) pair.at.columns }
{
    let mut j = pair.f + 1;
    while j < pair.at.columns {
        j = sweep_next(part, mult, pair, j);
    }
}

// The own columns of the pivot x at k: the multipliers of the rows.
fn own_columns(part: &mut [f64], nrow: usize, rows: usize, k: usize, x: Diagonal)
    requires rows_pre { RowsPre nrow (last_of k (is_block x)) 0 rows (length part.old) }
    requires fits { Fits w64 (last_of k (is_block x)) }
    ensures { view nrow part.new ≡ own_by (view nrow part.old) k 0 rows x }
{
    match x {
        Diagonal::One(d) => columns::scale(part, nrow, k, 0, rows, reciprocal(d)),
        Diagonal::Two(b) => {
            let r = reciprocal(b.det);
            columns::combine(part, nrow, k, 0, rows, b.d11, b.d21, b.d22, r);
        }
    }
}

// The rows below after the step of a pivot in the part's first columns.
// in: mult, first / in and out: part
// origin: src/numeric/ldlt/bunch_kaufman.rs, fn apply_bk_panel_trailing
pub fn below_step(part: &mut [f64], mult: &[f64], at: Part, first: Taken)
    requires { StepPre (is_block first.pivot) at first.row (length part.old) (length mult.now) }
    ensures { view at.nrow part.new
        ≡ below 0 at.rows (row_after_step at.columns
        (step_of 0 first.row first.pivot (column_of (view at.nb mult.now) 0)
        (column_of (view at.nb mult.now) 1))) (view at.nrow part.old) }
{
    let block = is_block(first.pivot);
    let last = diagonal::last_column(Elim(0), block).0;
    columns::exchange(part, at.nrow, last, first.row, 0, at.rows);
    sweep_first(part, mult, block, at, last + 1, at.columns, last, last);
    own_columns(part, at.nrow, at.rows, 0, first.pivot);
}

// The rows below after the steps of a pivot in the part's first columns and, right after it, of one in columns l to f.
// in: mult, first, second / in and out: part
// origin: src/numeric/ldlt/bunch_kaufman.rs, fn apply_bk_panel_trailing
pub fn below_pair(
    part: &mut [f64],
    mult: &[f64],
    at: Part,
    l: usize,
    f: usize,
    first: Taken,
    second: Taken,
)
    requires pair_pre { PairPre (pair_of at l f first second) (length part.old) (length mult.now) }
    requires kp_lt_columns { first.row < at.columns }
    ensures { view at.nrow part.new
        ≡ below 0 at.rows (row_after_both at.columns
        (step_of 0 first.row first.pivot (column_of (view at.nb mult.now) 0)
        (column_of (view at.nb mult.now) 1))
        (step_of l second.row second.pivot (column_of (view at.nb mult.now) l)
        (column_of (view at.nb mult.now) (l + 1)))) (view at.nrow part.old) }
{
    let pair = Pair {
        at,
        block1: is_block(first.pivot),
        block2: is_block(second.pivot),
        l,
        f,
        kq: second.row,
    };
    columns::exchange(part, at.nrow, l - 1, first.row, 0, at.rows);
    columns::exchange(part, at.nrow, f, second.row, 0, at.rows);
    sweep_first(part, mult, pair.block1, at, l, f + 1, f, second.row);
    sweep_both(part, mult, pair);
    own_columns(part, at.nrow, at.rows, 0, first.pivot);
    own_columns(part, at.nrow, at.rows, l, second.pivot);
}
