// Rows lo up to hi of columns of a column-major panel: lent to a kernel as a part of the panel, or exchanged; and a
// part of a vector.
// A reader may rely on the contracts: nothing else of the panel or of the vector changes.
ghost use Rattle.std.specs.Prelude.{◌≡◌, ◌+◌, ◌-◌, length};
ghost use Rattle.std.specs.Int.{w64};
ghost use Rattle.std.proofs.Common.{Fits};
ghost use Rattle.model.specs.Matrix.{view, vec, with_column, with_part};
ghost use Rattle.kernels.specs.Rules.{zeroed, times, combined};
ghost use Rattle.grid.specs.Rules.{column_of, less_columns, less_times_if};
ghost use Rattle.grid.specs.Rules.{columns_exchanged, PartPre, LaterPre, RowsPre, ExchangePre};

use super::{column_start, places};

// Numbers lo up to hi of x become +0.0. (Over `fill`, so that what a part of zeros is stands in one contract.)
pub fn zero(x: &mut [f64], lo: usize, hi: usize)
    requires { PartPre lo hi (length x.old) }
    ensures { vec x.new ≡ with_part (vec x.old) lo hi zeroed }
{
    x[lo..hi].fill(0.0);
}

// Rows lo up to hi of column j become r times as large.
pub fn scale(panel: &mut [f64], nrow: usize, j: usize, lo: usize, hi: usize, r: f64)
    requires { RowsPre nrow j lo hi (length panel.old) }
    ensures { view nrow panel.new
        ≡ with_column (view nrow panel.old) j lo hi
        (times (column_of (view nrow panel.old) j) r) }
{
    let start = column_start(nrow, j);
    let a = lo + start;
    let b = hi + start;
    kernels::scale_own(&mut panel[a..b], hi - lo, r);
}

// Rows lo up to hi of columns k and k + 1, s and t, become (d22·s − d21·t)·r and (d11·t − d21·s)·r.
pub fn combine(
    panel: &mut [f64],
    nrow: usize,
    k: usize,
    lo: usize,
    hi: usize,
    d11: f64,
    d21: f64,
    d22: f64,
    r: f64,
)
    requires rows_pre { RowsPre nrow (k + 1) lo hi (length panel.old) }
    requires fits { Fits w64 (k + 1) }
    ensures { view nrow panel.new
        ≡ with_column
        (with_column (view nrow panel.old) k lo hi
        (combined (column_of (view nrow panel.old) k) (column_of (view nrow panel.old) (k + 1))
        d22 d21 r)) (k + 1) lo hi
        (combined (column_of (view nrow panel.old) (k + 1)) (column_of (view nrow panel.old) k)
        d11 d21 r) }
{
    let first = column_start(nrow, k);
    let second = column_start(nrow, k + 1);
    let a = lo + first;
    let b = hi + second;
    kernels::combine_own(&mut panel[a..b], second - first, hi - lo, d11, d21, d22, r);
}

// Rows lo up to hi of column j lose those of columns k to k + N − 1, which stand before it, times m[0] to m[N − 1], in
// turn.
pub fn less_columns<const N: usize>(
    panel: &mut [f64],
    nrow: usize,
    k: usize,
    j: usize,
    lo: usize,
    hi: usize,
    m: [f64; N],
)
    requires { LaterPre nrow (k + (N - 1)) j lo hi (length panel.old) }
    ensures { view nrow panel.new
        ≡ with_column (view nrow panel.old) j lo hi
        (less_columns N (view nrow panel.old) k j (vec m.entry)) }
{
    let own = column_start(nrow, j);
    let at = places::<N>(nrow, k, lo);
    kernels::less_ahead(panel, at, lo + own, hi - lo, m);
}

// Of column k alone, and nothing where m is a zero of either sign.
pub fn less_if(panel: &mut [f64], nrow: usize, k: usize, j: usize, lo: usize, hi: usize, m: f64)
    requires { LaterPre nrow k j lo hi (length panel.old) }
    ensures { view nrow panel.new
        ≡ with_column (view nrow panel.old) j lo hi
        (less_times_if (column_of (view nrow panel.old) j) (column_of (view nrow panel.old) k) m) }
{
    if m != 0.0 {
        less_columns(panel, nrow, k, j, lo, hi, [m]);
    }
}

// Rows lo up to hi of columns p and q, one for the other; nothing where they are the same column.
pub fn exchange(panel: &mut [f64], nrow: usize, p: usize, q: usize, lo: usize, hi: usize)
    requires { ExchangePre nrow p q lo hi (length panel.old) }
    ensures { view nrow panel.new ≡ columns_exchanged (view nrow panel.old) p q lo hi }
{
    if p == q {
        return;
    }
    let early = column_start(nrow, p.min(q));
    let late = column_start(nrow, p.max(q));
    let (before, after) = panel.split_at_mut(late);
    before[lo + early..hi + early].swap_with_slice(&mut after[lo..hi]);
}
