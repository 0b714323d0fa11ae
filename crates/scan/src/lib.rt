// Scans that only read a panel: the first number that is not finite, and the marks of the tail. A reader may rely on
// the contracts: each scan equals its definition in crates/model, infinities and not-a-number included. No scan reads
// an upper position (row < column): tests/upper.c sees to it, since no contract can say what is not read.
#![tactic(auto)]

ghost use Rattle.std.specs.Prelude.{◌≡◌, ◌-◌, length};
ghost use Rattle.model.specs.Matrix.{view, vec};
ghost use Rattle.model.specs.Factor.{columns_check};
ghost use Rattle.kernels.specs.Rules.{TwoPre};
ghost use Rattle.grid.specs.Grid.{DownPre};
ghost use Rattle.total.specs.Finite.{column_finite, PanelPre};
ghost use Rattle.scan.specs.Finite.{marked_by, finite_from, first_row};
ghost use Rattle.scan.specs.Marks.{part_marked, marked, tail_marks, TailColumnPre};

use model::{Elim, LocalRow, Refusal};
use total::Summed;

// A mark, 1 from the first number on that is not finite.
fn mark(before: u8, x: f64) -> u8
    ensures { result ≡ marked_by before x }
{
    if scalar::is_finite(x) { before } else { 1 }
}

// Whether all numbers are finite. It is never left early, as `all` would be, so that the machine tests several at a
// time. (What was found is a byte, as a mark is: one law serves both.)
fn all_finite(xs: &[f64]) -> bool
    ensures { result ≡ finite_from (vec xs.now) 0 (length xs.now) }
{
    let mut found = 0;
    for x in xs {
        found = mark(found, *x);
    }
    found == 0
}

// Whether rows lo up to hi of column j are finite.
pub fn column_finite(panel: &[f64], nrow: usize, j: usize, lo: usize, hi: usize) -> bool
    requires { DownPre nrow j lo hi (length panel.now) }
    ensures { result ≡ column_finite (view nrow panel.now) j lo hi }
{
    let start = grid::column_start(nrow, j);
    let from = lo + start;
    let end = hi + start;
    all_finite(&panel[from..end])
}

// The row from which column j is looked at: its diagonal, or past its end where all of it is finite (no Option, since
// there is then no row to look at).
fn first_row(input: &[f64], nrow: usize, j: usize) -> usize
    requires { DownPre nrow j j nrow (length input.now) }
    ensures { result ≡ first_row (view nrow input.now) nrow j }
{
    if column_finite(input, nrow, j, j, nrow) {
        nrow
    } else {
        j
    }
}

// The first number of the lower panel that is not finite, each column looked at in turn. (The label is that of
// docs/SCOPE.md, "What contracts and code must have".)
fn first_by_columns(input: &[f64], ncol: usize, nrow: usize) -> Result<(), Refusal>
    requires { PanelPre nrow ncol (length input.now) }
    ensures { result ≡ columns_check (view nrow input.now) nrow ncol 0 }
{
    let mut found = Ok(());
    'columns: for column in 0..ncol {
        for row in first_row(input, nrow, column)..nrow {
            if !scalar::is_finite(grid::get(input, nrow, row, column)) {
                found = Err(Refusal::Input(Elim(column), LocalRow(row)));
                break 'columns;
            }
        }
    }
    found
}

// The first number of the lower panel that is not finite, by column and then by row: refusal 6. One pass over its
// numbers comes first: where they are known to be finite, there is none.
pub fn first_not_finite(input: &[f64], ncol: usize, nrow: usize) -> Result<(), Refusal>
    requires { PanelPre nrow ncol (length input.now) }
    ensures { result ≡ columns_check (view nrow input.now) nrow ncol 0 }
{
    if total::known_finite(input, ncol, nrow) {
        return Ok(());
    }
    first_by_columns(input, ncol, nrow)
}

// The first n marks after one more column of their rows. (One index for both slices: after a `zip` of an `iter_mut`
// nothing is known of the marks.)
fn mark_column(marks: &mut [u8], column: &[f64], n: usize)
    requires { TwoPre n (length marks.old) (length column.now) }
    ensures { marks.new ≡ part_marked marks.old column.now n }
{
    for i in 0..n {
        marks[i] = mark(marks[i], column[i]);
    }
}

// The marks after column j of the tail: as they were where all of it is finite.
fn mark_tail(marks: &mut [u8], panel: &[f64], ncol: usize, nrow: usize, j: usize)
    requires { TailColumnPre nrow ncol j (length panel.now) (length marks.old) }
    ensures { marks.new ≡ marked marks.old (view nrow panel.now) ncol nrow j }
{
    if column_finite(panel, nrow, j, ncol, nrow) {
        return;
    }
    let start = grid::column_start(nrow, j);
    let from = ncol + start;
    let end = nrow + start;
    mark_column(marks, &panel[from..end], nrow - ncol);
}

// The marks of the tail, by columns: 1 if a row holds a number not finite, else 0.
// in: the panel, and whether its lower positions are known to be finite, the tail among them: then zeros stay
// out: marks
// origin: src/numeric/ldlt/bunch_kaufman.rs, fn ll_cdiv_emit
pub fn marks_of(s: Summed, marks: &mut [u8])
    requires { length marks.old ≡ s.nrow - s.ncol }
    ensures { marks.new ≡ tail_marks (view s.entry.nrow s.entry.panel.now) s.entry.ncol s.entry.nrow s.entry.ncol }
{
    marks.fill(0);
    if s.finite {
        return;
    }
    for j in 0..s.ncol {
        mark_tail(marks, s.panel, s.ncol, s.nrow, j);
    }
}
