// Back substitution through the transpose of L: each number loses its column of L times the numbers after it, from the
// last one down. That is a sum down a column, which keeps its order; so that the machine need not wait for each term,
// the sums of four columns go down together as far as none of the four is needed, and only the small triangle between
// the four is left to one after another. A reader may rely on the contract of `back`.
#![tactic(auto)]

ghost use Rattle.std.specs.Prelude.{◌≡◌, ◌+◌, ◌-◌, ◌*◌, ◌≤◌, length};
ghost use Rattle.model.specs.Matrix.{view, vec, naturals};
ghost use Rattle.model.specs.Solve.{back_from};
ghost use Rattle.forward.specs.Forward.{ForwardPre, ColumnPre, BelowPre, TogetherPre};
ghost use Rattle.back.specs.Back.{fallen, fallen_whole, step_back, two_back, steps_back, TwoPre};

use grid::column_start;
use model::Elim;

// v less the entries of L in column k times x, from row hi - 1 down.
fn less_down(panel: &[f64], blocks: &[u8], x: &[f64], k: usize, hi: usize, v: f64) -> f64
    requires { ColumnPre blocks.now (length x.now) k hi (length panel.now) }
    ensures { result ≡ fallen (naturals blocks.now)
        (view (length x.now) panel.now) (vec x.now) k (hi - (k + 1)) (k + 1) v }
{
    let start = column_start(x.len(), k);
    let past = diagonal::past(blocks, Elim(k));
    let mut s = v;
    // by places, since the column of L and x are read in step, from the last row down
    for i in (past..hi).rev() {
        s = s - panel[i + start] * x[i];
    }
    s
}

// x[k] to x[k + 3], each less the rows of its column from the last down to lo times x.
fn four_down(panel: &[f64], x: &[f64], k: usize, lo: usize) -> [f64; 4]
    requires { BelowPre (length x.now) k lo (length panel.now) }
    ensures result_value { (vec result 0 ≡ fallen_whole (view (length x.now) panel.now) (vec x.now)
        k (length x.now - lo) lo)
        × (vec result 1 ≡ fallen_whole (view (length x.now) panel.now) (vec x.now)
        (k + 1) (length x.now - lo) lo) }
    ensures result_value_2 { (vec result 2 ≡ fallen_whole (view (length x.now) panel.now) (vec x.now)
        (k + 2) (length x.now - lo) lo)
        × (vec result 3 ≡ fallen_whole (view (length x.now) panel.now) (vec x.now)
        (k + 3) (length x.now - lo) lo) }
{
    let n = x.len();
    let [a, b, c, d] = grid::places::<4>(n, k, 0);
    // a variable for each sum, and no array: what the machine keeps in registers
    let mut s0 = x[k];
    let mut s1 = x[k + 1];
    let mut s2 = x[k + 2];
    let mut s3 = x[k + 3];
    for i in (lo..n).rev() {
        let v = x[i];
        s0 = s0 - panel[a + i] * v;
        s1 = s1 - panel[b + i] * v;
        s2 = s2 - panel[c + i] * v;
        s3 = s3 - panel[d + i] * v;
    }
    [s0, s1, s2, s3]
}

// Position k, whose sum stands at v from row hi on.
fn step_back(panel: &[f64], blocks: &[u8], x: &mut [f64], k: usize, hi: usize, v: f64)
    requires { ColumnPre blocks.now (length x.old) k hi (length panel.now) }
    ensures { vec x.new ≡ step_back (naturals blocks.now)
        (view (length x.old) panel.now) hi k v (vec x.old) }
{
    x[k] = less_down(panel, blocks, &x[..], k, hi, v);
}

// Position k + 1, whose sum stands at w from row hi on, then k, whose sum stands at v.
fn two_back(panel: &[f64], blocks: &[u8], x: &mut [f64], k: usize, hi: usize, v: f64, w: f64)
    requires { TwoPre blocks.now (length x.old) k hi (length panel.now) }
    ensures { vec x.new ≡ two_back (naturals blocks.now)
        (view (length x.old) panel.now) hi k v w (vec x.old) }
{
    step_back(panel, blocks, x, k + 1, hi, w);
    step_back(panel, blocks, x, k, hi, v);
}

// Positions k + 3 down to k. (Not inlined: in one function with the rest of a solve the compiler keeps these loops'
// variables on the stack.)
#[inline(never)]
fn back_together(panel: &[f64], blocks: &[u8], x: &mut [f64], k: usize)
    requires { TogetherPre blocks.now (length x.old) k (length panel.now) }
    ensures { vec x.new ≡ steps_back (naturals blocks.now)
        (view (length x.old) panel.now) (length x.old) 4 k (vec x.old) }
{
    let hi = diagonal::past_four(k, x.len());
    let [s0, s1, s2, s3] = four_down(panel, &x[..], k, hi);
    two_back(panel, blocks, x, k + 2, hi, s2, s3);
    two_back(panel, blocks, x, k, hi, s0, s1);
}

// The last positions down to s, one by one.
fn back_by_ones(panel: &[f64], blocks: &[u8], x: &mut [f64], s: usize)
    requires forward_pre { ForwardPre blocks.now (length x.old) (length panel.now) }
    requires s_in_bounds { s ≤ length x.old }
    ensures { vec x.new ≡ steps_back (naturals blocks.now)
        (view (length x.old) panel.now) (length x.old) (length x.old - s) s
        (vec x.old) }
{
    let n = x.len();
    for k in (s..n).rev() {
        let v = x[k];
        step_back(panel, blocks, x, k, n, v);
    }
}

// The first 4·q positions by fours, from the last of them down.
fn back_by_fours(panel: &[f64], blocks: &[u8], x: &mut [f64], q: usize)
    requires forward_pre { ForwardPre blocks.now (length x.old) (length panel.now) }
    requires q_in_bounds { 4 * q ≤ length x.old }
    ensures { vec x.new ≡ steps_back (naturals blocks.now)
        (view (length x.old) panel.now) (length x.old) (4 * q) 0
        (vec x.old) }
{
    for f in (0..q).rev() {
        back_together(panel, blocks, x, 4 * f);
    }
}

// in: panel, n·n numbers, column-major, L below the diagonal and outside of the blocks; blocks, n sound block bytes.
// in and out: x, n numbers: each loses L of its column times those after it, by falling position.
pub fn back(panel: &[f64], blocks: &[u8], x: &mut [f64])
    requires { ForwardPre blocks.now (length x.old) (length panel.now) }
    ensures { vec x.new ≡ back_from (naturals blocks.now)
        (view (length x.old) panel.now) (length x.old) (length x.old)
        (vec x.old) }
{
    let q = x.len() / 4;
    back_by_ones(panel, blocks, x, 4 * q);
    back_by_fours(panel, blocks, x, q);
}
