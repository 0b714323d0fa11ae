// The greatest square below a diagonal, and across a row and its column, for the tests of the pivot rule. A reader may
// rely on the contracts: each scan equals its definition in crates/model, not-a-number, ties and signed zeros included,
// and its square is 0 or that of the number at the place it names (`FoundIn`). No scan reads an upper position
// (row < column): tests/upper.c sees to it, since no contract can say what is not read.
#![tactic(auto)]

ghost use Rattle.std.specs.Prelude.{◌≡◌, length};
ghost use Rattle.model.specs.Scalar.{square_of};
ghost use Rattle.model.specs.Matrix.{view};
ghost use Rattle.model.specs.Choice.{column_greatest, row_greatest};
ghost use Rattle.grid.specs.Grid.{DownPre};
ghost use Rattle.greatest.specs.Greatest.{better, greatest_down, greatest_along, across};
ghost use Rattle.greatest.specs.Greatest.{AlongPre, ColumnPre, RowPre, AcrossPre, FoundIn};

use model::{Elim, Frame, Greatest, LocalRow};

// The better of `best` and a number x at a place: the greater square, the first on ties; a not-a-number never wins.
fn better(best: Greatest, x: f64, at: usize) -> Greatest
    ensures { result ≡ better best (square_of x) at }
{
    let square = scalar::square(x);
    if square > best.square {
        return Greatest {
            square,
            at: LocalRow(at),
        };
    }
    best
}

// The greatest square of rows lo up to hi of a column, beginning with `best`.
fn greatest_down(
    panel: &[f64],
    nrow: usize,
    column: usize,
    lo: usize,
    hi: usize,
    best: Greatest,
) -> Greatest
    requires { DownPre nrow column lo hi (length panel.now) }
    ensures { result ≡ greatest_down (view nrow panel.now) column lo hi best }
{
    let start = grid::column_start(nrow, column);
    let mut g = best;
    for i in lo..hi {
        g = better(g, panel[i + start], i);
    }
    g
}

// The greatest square of columns lo up to hi of a row, beginning with `best`. One loop for both directions, with a step
// of 1 or of nrow, would be no plainer: a column's numbers stand side by side, so its address is worked out once.
fn greatest_along(
    panel: &[f64],
    nrow: usize,
    row: usize,
    lo: usize,
    hi: usize,
    best: Greatest,
) -> Greatest
    requires { AlongPre nrow row lo hi (length panel.now) }
    ensures { result ≡ greatest_along (view nrow panel.now) row lo hi best }
{
    let mut g = best;
    for j in lo..hi {
        g = better(g, grid::get(panel, nrow, row, j), j);
    }
    g
}

// The greatest square below the diagonal of column k and above the panel's end; 0 and k where none is above 0.
// origin: src/numeric/ldlt/bunch_kaufman.rs, fn ll_bk_panel_step
pub fn column_greatest(panel: &[f64], at: Frame, k: Elim) -> Greatest
    requires { ColumnPre at.nrow at.ncol k.0 at.ke (length panel.now) }
    ensures value { result ≡ column_greatest (view at.nrow panel.now) k.0 at.ke }
    ensures found_in { FoundIn k.0 at.ke result (view at.nrow panel.now result.at.0 k.0) }
{
    greatest_down(
        panel,
        at.nrow,
        k.0,
        k.0 + 1,
        at.ke,
        Greatest {
            square: 0.0,
            at: LocalRow(k.0),
        },
    )
}

// What row and column r hold at a place: left of the diagonal the row's number, below it the column's.
pub fn across(panel: &[f64], nrow: usize, r: LocalRow, at: LocalRow) -> f64
    requires { AcrossPre nrow r.0 at.0 (length panel.now) }
    ensures { result ≡ across (view nrow panel.now) r.0 at.0 }
{
    grid::get(panel, nrow, r.0.max(at.0), r.0.min(at.0))
}

// The greatest square of row and column r from k to the panel's end, its diagonal aside.
// origin: src/numeric/ldlt/bunch_kaufman.rs, fn ll_bk_panel_step
pub fn row_greatest(panel: &[f64], at: Frame, k: Elim, r: LocalRow) -> Greatest
    requires { RowPre at.nrow at.ncol k.0 at.ke r.0 (length panel.now) }
    ensures value { result ≡ row_greatest (view at.nrow panel.now) k.0 at.ke r.0 }
    ensures found_in { FoundIn k.0 at.ke result (across (view at.nrow panel.now) r.0 result.at.0) }
{
    let none = Greatest {
        square: 0.0,
        at: LocalRow(k.0),
    };
    let along = greatest_along(panel, at.nrow, r.0, k.0, r.0, none);
    greatest_down(panel, at.nrow, r.0, r.0 + 1, at.ke, along)
}
