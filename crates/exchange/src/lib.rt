// The symmetric exchange of two rows and columns in the lower triangle of a column-major panel, up to the panel's end.
// A reader may rely on the contracts of the two public functions: the panel becomes `exchanged` of
// model/specs/Matrix.antt, so nothing above the diagonal and no row from the end on changes.
#![tactic(auto)]

ghost use Rattle.std.specs.List.{swap};
ghost use Rattle.std.specs.Prelude.{◌≡◌, ◌+◌, ◌<◌, length};
ghost use Rattle.model.specs.Matrix.{view, exchanged};
ghost use Rattle.exchange.specs.Exchange.{cross_exchanged, diagonal_exchanged, rows_exchanged};
ghost use Rattle.exchange.specs.Exchange.{PairPre, ExchangePre, ExchangeIfPre};

use grid::column_start;
use model::{Frame, LocalRow};

// The numbers at x and y, one for the other. (std's `swap` first asks which of the two places comes first; in these
// loops that took half as many instructions again.)
fn swap(panel: &mut [f64], x: usize, y: usize)
    requires { (x < length panel.old) × (y < length panel.old) }
    ensures { panel.new ≡ swap panel.old x y }
{
    let t = panel[x];
    panel[x] = panel[y];
    panel[y] = t;
}

// What stands between the two: column p below row p, and row q before column q, one for the other, mirrored.
fn exchange_cross(panel: &mut [f64], nrow: usize, p: LocalRow, q: LocalRow)
    requires { PairPre nrow p.0 q.0 (length panel.old) }
    ensures { view nrow panel.new
        ≡ cross_exchanged (view nrow panel.old) p.0 q.0 (p.0 + 1) q.0 }
{
    let first = column_start(nrow, p.0);
    for i in (p.0 + 1)..q.0 {
        let own = column_start(nrow, i);
        swap(panel, i + first, q.0 + own);
    }
}

// The two diagonal entries.
fn exchange_diagonal(panel: &mut [f64], nrow: usize, p: LocalRow, q: LocalRow)
    requires { PairPre nrow p.0 q.0 (length panel.old) }
    ensures { view nrow panel.new
        ≡ diagonal_exchanged (view nrow panel.old) p.0 q.0 }
{
    let first = column_start(nrow, p.0);
    let second = column_start(nrow, q.0);
    swap(panel, p.0 + first, q.0 + second);
}

// The two rows in the columns before p.
fn exchange_rows(panel: &mut [f64], nrow: usize, p: LocalRow, q: LocalRow)
    requires { PairPre nrow p.0 q.0 (length panel.old) }
    ensures { view nrow panel.new
        ≡ rows_exchanged (view nrow panel.old) p.0 q.0 0 p.0 }
{
    for j in 0..p.0 {
        let start = column_start(nrow, j);
        swap(panel, p.0 + start, q.0 + start);
    }
}

// The exchange of p < q in the lower triangle before the panel's end, its parts in turn: the columns below q, the cross
// strip, the diagonal, the rows left of p.
// origin: src/numeric/ldlt/bunch_kaufman.rs, fn swap_sym_lower_bounded
pub fn swap_sym_lower_bounded(panel: &mut [f64], at: Frame, p: LocalRow, q: LocalRow)
    requires { ExchangePre at.nrow at.ncol p.0 q.0 at.ke (length panel.old) }
    ensures { view at.nrow panel.new ≡ exchanged p.0 q.0 at.ke (view at.nrow panel.old) }
{
    grid::columns::exchange(panel, at.nrow, p.0, q.0, q.0 + 1, at.ke);
    exchange_cross(panel, at.nrow, p, q);
    exchange_diagonal(panel, at.nrow, p, q);
    exchange_rows(panel, at.nrow, p, q);
}

// The exchange of p ≤ q, which is none where they are one. (Inlined: a step mostly exchanges nothing.)
#[inline(always)]
pub fn exchange_if(panel: &mut [f64], at: Frame, p: LocalRow, q: LocalRow)
    requires { ExchangeIfPre at.nrow at.ncol p.0 q.0 at.ke (length panel.old) }
    ensures { view at.nrow panel.new ≡ exchanged p.0 q.0 at.ke (view at.nrow panel.old) }
{
    if p.0 != q.0 {
        swap_sym_lower_bounded(panel, at, p, q);
    }
}
