// A vector divided by D, pivot by pivot, by the elimination's own formulas. A reader may rely on the contract of
// `divide`: each position becomes what the definition says of it, and no number is checked.
#![tactic(auto)]

ghost use Rattle.std.specs.Prelude.{◌≡◌, ◌+◌, ◌<◌, length};
ghost use Rattle.model.specs.Scalar.{◌⊗◌, reciprocal_of};
ghost use Rattle.model.specs.Matrix.{vec, put, with_part};
ghost use Rattle.model.specs.Step.{diagonals_in, first_multiplier, second_multiplier};
ghost use Rattle.model.specs.Solve.{divided};
ghost use Rattle.divide.specs.Divide.{pivot_divided, DividePre};
ghost use Rattle.diagonal.specs.Diagonal.{PivotPre};

use model::{Block, DiagonalLists, Elim};

// A 1x1 at k: y·(1/d).
fn divide_one(y: &mut [f64], k: usize, d: f64)
    requires { k < length y.old }
    ensures { vec y.new ≡ put (vec y.old) k (vec y.old k ⊗ reciprocal_of d) }
{
    y[k] = y[k] * scalar::reciprocal(d);
}

// A block at k and k + 1, where s and t stand: (d22·s − d21·t)·(1/det) and (d11·t − d21·s)·(1/det).
fn divide_two(y: &mut [f64], k: usize, b: Block)
    requires { k + 1 < length y.old }
    ensures { vec y.new ≡ put
        (put (vec y.old) k (first_multiplier b (vec y.old k) (vec y.old (k + 1))))
        (k + 1) (second_multiplier b (vec y.old k) (vec y.old (k + 1))) }
{
    let s = y[k];
    let t = y[k + 1];
    let r = scalar::reciprocal(b.det);
    y[k] = (b.d22 * s - b.d21 * t) * r;
    y[k + 1] = (b.d11 * t - b.d21 * s) * r;
}

// The pivot that begins at k.
fn divide_pivot(x: DiagonalLists, y: &mut [f64], k: Elim)
    requires pivot_pre { PivotPre k.0 (length x.d.now) (length x.sub.now) x.blocks.now }
    requires d_len { length x.d.now ≡ length y.old }
    ensures { vec y.new ≡ pivot_divided (diagonals_in x.entry) k.0 (vec y.old) }
{
    if diagonal::block_begins(x.blocks, k) {
        divide_two(y, k.0, diagonal::block_at(x, k));
        return;
    }
    divide_one(y, k.0, x.d[k.0]);
}

// in: x, lists of n places, D with sound block bytes. in and out: y, n numbers.
pub fn divide(x: DiagonalLists, y: &mut [f64])
    requires { DividePre x.blocks.now (length x.d.now) (length x.sub.now) (length y.old) }
    ensures { vec y.new ≡ with_part (vec y.old) 0 (length y.old) (divided (diagonals_in x.entry) (vec y.old)) }
{
    let n = y.len();
    let mut k = 0;
    // the next pivot's column is one or two further on, as the lists say: no iterator says it more plainly
    while k < n {
        let at = Elim(k);
        divide_pivot(x, y, at);
        k = diagonal::past(x.blocks, at);
    }
}
