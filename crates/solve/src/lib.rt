// Solve at a root node: the right side is taken in the recorded order, goes forward through L, is divided by D, goes
// back through L, and is put back in the order of the rows. A reader may rely on `solve` answering any arguments: it
// refuses and writes nothing, or the vector holds what the rounded steps of the definition make of it (model,
// specs/Solve.antt).
#![tactic(auto)]

ghost use Rattle.std.specs.Prelude.{◌≡◌, true, length};
ghost use Rattle.model.specs.Matrix.{view, vec, naturals};
ghost use Rattle.model.specs.Step.{diagonals_in};
ghost use Rattle.model.specs.Assembly.{first_not};
ghost use Rattle.model.specs.Solve.{square_sound, solve_lengths, right_side_at, solve_check, solution_of, solve_of};
ghost use Rattle.checks.specs.Finite.{finite_at};
ghost use Rattle.forward.specs.Forward.{ForwardPre};
ghost use Rattle.divide.specs.Divide.{DividePre};
ghost use Rattle.solve.specs.Call.{factor_in, through_factor, solve_leaves, SubstitutePre};

use model::{COLUMNS_MAX, DiagonalLists, LocalRow, Refusal};

// What a factor call of a root node left: the panel, ncol·ncol numbers; D and the order, ncol places each.
#[derive(Clone, Copy)]
pub struct Factor<'a> {
    pub panel: &'a [f64],
    pub diagonals: DiagonalLists<'a>,
    pub order: &'a [usize],
}

// ---- refusals

// Refusal 1's test: as in a factor call, and the node is square.
fn square_sound(ncol: usize, nrow: usize) -> bool
    ensures { result ≡ square_sound ncol nrow }
{
    checks::shape_sound(ncol, nrow) & (nrow == ncol)
}

// Refusal 25's test. The shape is sound, so that the panel's length fits.
fn lengths_sound(ncol: usize, nrow: usize, f: Factor, vector: &[f64]) -> bool
    requires { square_sound ncol nrow ≡ true }
    ensures { result ≡ solve_lengths ncol nrow (factor_in f.entry) vector.now }
{
    let x = f.diagonals;
    (f.panel.len() == nrow * ncol)
        & ((x.d.len() == ncol)
            & ((x.sub.len() == ncol)
                & ((x.blocks.len() == ncol) & ((f.order.len() == ncol) & (vector.len() == ncol)))))
}

// Refusal 27: the first number of the right side that is not finite.
fn first_bad_number(vector: &[f64]) -> Result<(), Refusal>
    ensures { result ≡ first_not (finite_at vector.now) right_side_at (length vector.now) 0 }
{
    match checks::first_bad_number(vector) {
        Some(k) => Err(Refusal::RightSide(LocalRow(k))),
        None => Ok(()),
    }
}

// Refusals 1, 25, 26, 16 and 27.
fn solve_check(ncol: usize, nrow: usize, f: Factor, vector: &[f64]) -> Result<(), Refusal>
    ensures { result ≡ solve_check ncol nrow (factor_in f.entry) vector.now }
{
    if !square_sound(ncol, nrow) {
        return Err(Refusal::Shape);
    }
    if !lengths_sound(ncol, nrow, f, vector) {
        return Err(Refusal::BufferLength);
    }
    order::first_bad_row(f.order)?;
    checks::first_bad_byte(f.diagonals.blocks)?;
    first_bad_number(vector)
}

// ---- the steps

// By elimination position: forward through L, divided by D, back through L.
fn through_factor(f: Factor, y: &mut [f64])
    requires forward_pre { ForwardPre f.diagonals.blocks.now (length y.old) (length f.panel.now) }
    requires divide_pre { DividePre f.diagonals.blocks.now (length f.diagonals.d.now)
        (length f.diagonals.sub.now) (length y.old) }
    ensures { vec y.new ≡ through_factor (length y.old) (diagonals_in f.entry.diagonals)
        (view (length y.old) f.entry.panel.now) (vec y.old) }
{
    forward::forward(f.panel, f.diagonals.blocks, y);
    divide::divide(f.diagonals, y);
    back::back(f.panel, f.diagonals.blocks, y);
}

// In the recorded order, through the factor, and the order undone.
// work: y, as many numbers as the node has columns, any on entry.
fn substitute(f: Factor, vector: &mut [f64], y: &mut [f64])
    requires { SubstitutePre (factor_in f) (length vector.old) (length y.old) }
    ensures { vec vector.new ≡ solution_of (length y.old) (diagonals_in f.entry.diagonals)
        (view (length y.old) f.entry.panel.now) (naturals f.entry.order.now) (vec vector.old) }
{
    order::take(&vector[..], f.order, y);
    through_factor(f, y);
    order::put_back(vector, f.order, &y[..]);
}

// in: ncol and nrow, a root node's columns and rows, which are as many; f, as a factor call of it left it.
// in and out: vector, ncol numbers: the right side, by the node's rows, and after acceptance the solution.
// Ok, or refusal 1, 25, 26, 16 or 27.
pub fn solve(ncol: usize, nrow: usize, f: Factor, vector: &mut [f64]) -> Result<(), Refusal>
    ensures { solve_leaves result vector.new ≡ solve_of ncol nrow (factor_in f.entry) vector.old }
{
    solve_check(ncol, nrow, f, &vector[..])?;
    // by elimination position: what is worked on between the two orders; of a limit's length, for there is no heap
    let mut y = [0.0; COLUMNS_MAX];
    substitute(f, vector, &mut y[0..ncol]);
    Ok(())
}
