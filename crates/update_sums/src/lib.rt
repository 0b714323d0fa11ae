// The sums of an update. With v = D·(row c of L) of a landing row c, acc = L·v of a part of the descendant's rows is
// summed from +0.0 in column order, two columns a pass. A reader may rely on the contract of `sum`: acc of these rows
// over all columns, whatever it was before.
#![tactic(auto)]

ghost use Rattle.std.specs.Prelude.{◌≡◌, ◌+◌, ◌-◌, ◌≤◌, length};
ghost use Rattle.std.specs.Int.{w64};
ghost use Rattle.std.proofs.Common.{Fits};
ghost use Rattle.model.specs.Matrix.{view, vec, with_part};
ghost use Rattle.kernels.specs.Rules.{plus_times};
ghost use Rattle.grid.specs.Rules.{column_of, RowsPre};
ghost use Rattle.update_sums.specs.Acc.{matrix_in, weights_in, sums_in, from_row, two_added, WeightPre, SumPre};

use grid::{column_start, columns};
use model::{Elim, LocalRow};

// So many columns of a panel of any number of rows, with d, subdiagonal and block byte of each: a descendant's, for the
// update.
#[derive(Clone, Copy)]
pub struct Columns<'a> {
    pub panel: &'a [f64],
    pub rows: usize,
    pub columns: usize,
    pub d: &'a [f64],
    pub sub: &'a [f64],
    pub blocks: &'a [u8],
}

// v at a column: l·d; a·d11 + b·d21 in a block's first column, a·d21 + b·d22 in its second.
fn weight(k: Columns, row: LocalRow, column: Elim) -> f64
    requires { WeightPre k row.0 column.0 }
    ensures { result ≡ weights_in k.entry row.0 column.0 }
{
    let all = k.rows;
    let s = column.0;
    let l = grid::get(k.panel, all, row.0, s);
    if diagonal::block_begins(k.blocks, column) {
        return l * k.d[s] + grid::get(k.panel, all, row.0, s + 1) * k.sub[s];
    }
    if diagonal::ends_block(k.blocks, column) {
        return grid::get(k.panel, all, row.0, s - 1) * k.sub[s - 1] + l * k.d[s];
    }
    l * k.d[s]
}

// acc of rows lo up to hi of the panel gains those rows of a column times v; acc's number 0 is row lo's.
fn add_column(acc: &mut [f64], k: Columns, column: Elim, lo: usize, hi: usize, v: f64)
    requires rows_pre { RowsPre k.rows column.0 lo hi (length k.panel.now) }
    requires lo_in_bounds { hi - lo ≤ length acc.old }
    ensures { vec acc.new ≡ with_part (vec acc.old) 0 (hi - lo)
        (plus_times (vec acc.old) (from_row (column_of (matrix_in k.entry) column.0) lo) v) }
{
    let start = column_start(k.rows, column.0);
    let a = lo + start;
    let b = hi + start;
    kernels::plus(acc, &k.panel[a..b], hi - lo, v);
}

// It gains those rows of the column times v, then those of the next times w. The loop vectorises: no branch, no call,
// and an index into three lists at once, which a zip of three would say no plainer.
fn add_two(acc: &mut [f64], k: Columns, column: Elim, lo: usize, hi: usize, v: f64, w: f64)
    requires rows_pre { RowsPre k.rows column.0 lo hi (length k.panel.now) }
    requires rows_pre_2 { RowsPre k.rows (column.0 + 1) lo hi (length k.panel.now) }
    requires lo_in_bounds { (hi - lo ≤ length acc.old) × Fits w64 (column.0 + 1) }
    ensures { vec acc.new ≡ with_part (vec acc.old) 0 (hi - lo)
        (two_added (vec acc.old) (matrix_in k.entry) column.0 lo v w) }
{
    let panel = k.panel;
    let all = k.rows;
    let first = column_start(all, column.0);
    let second = column_start(all, column.0 + 1);
    let a = lo + first;
    let b = lo + second;
    for i in 0..hi - lo {
        acc[i] = acc[i] + panel[a + i] * v + panel[b + i] * w;
    }
}

// acc of rows lo up to hi of the panel, of the landing row `row`, over all columns: two in each pass, and the last
// alone where their number is odd.
pub fn sum(acc: &mut [f64], k: Columns, row: LocalRow, lo: usize, hi: usize)
    requires { SumPre k row.0 lo hi (length acc.old) }
    ensures { vec acc.new ≡ with_part (vec acc.old) 0 (hi - lo)
        (from_row (sums_in k.entry k.entry.columns row.0) lo) }
{
    columns::zero(acc, 0, hi - lo);
    for pair in 0..k.columns / 2 {
        let s = 2 * pair;
        let v = weight(k, row, Elim(s));
        let w = weight(k, row, Elim(s + 1));
        add_two(acc, k, Elim(s), lo, hi, v, w);
    }
    if k.columns % 2 == 1 {
        let last = Elim(k.columns - 1);
        let v = weight(k, row, last);
        add_column(acc, k, last, lo, hi, v);
    }
}
