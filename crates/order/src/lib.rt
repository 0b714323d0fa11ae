// An order of rows: for each position the row that stands there. The check that it is a permutation (refusal 26), a
// vector taken in that order, and put back. A reader may rely on each being the definition's (model, specs/Solve.antt).
#![tactic(auto)]

ghost use Rattle.std.specs.Prelude.{◌≡◌, not, ◌&&◌, ◌<◌, ◌≤◌, ltb, eqb, length};
ghost use Rattle.model.specs.Sizes.{most_columns};
ghost use Rattle.model.specs.Matrix.{vec, naturals, with_part};
ghost use Rattle.model.specs.Solve.{check_order, ordered, returned_from};
ghost use Rattle.order.specs.Order.{OrderPre};

use model::{COLUMNS_MAX, Elim, Refusal};

// Whether a row is one of n, and not yet seen.
fn row_sound(seen: &[u8], row: usize, n: usize) -> bool
    requires { n ≤ length seen.now }
    ensures { result ≡ ltb row n && not (eqb (naturals seen.now row) 1) }
{
    row < n && seen[row] != 1
}

// Refusal 26: the first position that names no row of the node, or one that a position before it has named.
pub fn first_bad_row(order: &[usize]) -> Result<(), Refusal>
    requires { length order.now ≤ most_columns }
    ensures { result ≡ check_order (length order.now) (naturals order.now) }
{
    let n = order.len();
    // 1 for a row that a position has named: a byte and no bool, since the laws of lists are of numbers, and an array
    // of the limit's length, since there is no heap
    let mut seen = [0u8; COLUMNS_MAX];
    for (k, &row) in order.iter().enumerate() {
        if !row_sound(&seen, row, n) {
            return Err(Refusal::OrderPlace(Elim(k)));
        }
        seen[row] = 1;
    }
    Ok(())
}

// y takes the vector's numbers in the order.
pub fn take(vector: &[f64], order: &[usize], y: &mut [f64])
    requires { OrderPre order.now (length vector.now) (length y.old) }
    ensures { vec y.new ≡ with_part (vec y.old) 0 (length y.old)
        (ordered (naturals order.now) (vec vector.now)) }
{
    // y by its positions: after a `zip` of its `iter_mut` nothing is known of the numbers
    for (k, &row) in order.iter().enumerate() {
        y[k] = vector[row];
    }
}

// The order undone: what stands at a position goes to its row of the vector.
pub fn put_back(vector: &mut [f64], order: &[usize], y: &[f64])
    requires { OrderPre order.now (length vector.old) (length y.now) }
    ensures { vec vector.new ≡ returned_from (naturals order.now)
        (vec y.now) (length y.now) 0 (vec vector.old) }
{
    // the walk of `take` with its sides exchanged, and so by the positions too
    for (k, &row) in order.iter().enumerate() {
        vector[row] = y[k];
    }
}
