// Forward substitution through L, by columns: a number of the vector that is final takes its column's part from the
// numbers below, so that the rows are innermost and the loops vectorise. Four columns go together: first what they take
// from the rows among and right below them, then what the four of them take from all further rows in one pass. Each
// number still loses its terms one by one, by rising position. A reader may rely on the contract of `forward`.
// (Panel, block bytes and vector are lent each by itself: a struct of two shared lists and a lent one would serve this
// crate and back alone.)
#![tactic(auto)]

ghost use Rattle.std.specs.Prelude.{◌≡◌, ◌+◌, ◌-◌, ◌*◌, ◌≤◌, length};
ghost use Rattle.model.specs.Matrix.{view, vec, naturals, with_part};
ghost use Rattle.model.specs.Solve.{forward_from};
ghost use Rattle.forward.specs.Forward.{less_of, column_lost, columns_lost, four_lost};
ghost use Rattle.forward.specs.Forward.{LessPre, ColumnPre, BelowPre, ColumnsPre, TogetherPre, ForwardPre};

use grid::column_start;
use model::Elim;

// ---- the kernel

// Of the first n numbers of x, number i loses, for u = 0, 1 .. N − 1 in turn, number i of the run of g that begins at
// at[u], times m[u]. (By places, as the loops of crates/kernels. Not their less_ahead, which reads its runs from the
// slice that it writes.)
fn less<const N: usize>(x: &mut [f64], g: &[f64], at: [usize; N], n: usize, m: [f64; N])
    requires { LessPre N n (naturals at) (length x.old) (length g.now) }
    ensures { vec x.new ≡ with_part (vec x.old) 0 n
        (less_of N (vec x.old) (vec g.now) (naturals at.entry) (vec m.entry)) }
{
    for i in 0..n {
        let mut v = x[i];
        for u in 0..N {
            v = v - g[at[u] + i] * m[u];
        }
        x[i] = v;
    }
}

// ---- columns; the panel has as many rows as the vector has numbers

// Rows before hi that have an entry of L in column k lose it times y[k].
fn lose_column(panel: &[f64], blocks: &[u8], y: &mut [f64], k: usize, hi: usize)
    requires { ColumnPre blocks.now (length y.old) k hi (length panel.now) }
    ensures { vec y.new ≡ column_lost (naturals blocks.now)
        (view (length y.old) panel.now) hi k (vec y.old) }
{
    let start = column_start(y.len(), k);
    let lo = diagonal::past(blocks, Elim(k));
    let m = y[k];
    less(&mut y[lo..hi], panel, [lo + start], hi - lo, [m]);
}

// Rows from lo on lose columns k to k + 3 times y[k] to y[k + 3].
fn lose_four(panel: &[f64], y: &mut [f64], k: usize, lo: usize)
    requires { BelowPre (length y.old) k lo (length panel.now) }
    ensures { vec y.new ≡ four_lost
        (view (length y.old) panel.now) lo (length y.old) k (vec y.old) }
{
    let n = y.len();
    let at = grid::places::<4>(n, k, lo);
    let m = [y[k], y[k + 1], y[k + 2], y[k + 3]];
    less(&mut y[lo..n], panel, at, n - lo, m);
}

// Columns s up to e, one by one, take from rows before hi.
fn lose_columns(panel: &[f64], blocks: &[u8], y: &mut [f64], s: usize, e: usize, hi: usize)
    requires { ColumnsPre blocks.now (length y.old) s e hi (length panel.now) }
    ensures { vec y.new ≡ columns_lost (naturals blocks.now)
        (view (length y.old) panel.now) hi (e - s) s (vec y.old) }
{
    for k in s..e {
        lose_column(panel, blocks, y, k, hi);
    }
}

// Columns k to k + 3, one by one, take from rows before hi, which are few. (Not inlined: in one function with the rest
// of a solve the compiler keeps these loops' variables on the stack.)
#[inline(never)]
fn lose_beside(panel: &[f64], blocks: &[u8], y: &mut [f64], k: usize, hi: usize)
    requires { ColumnsPre blocks.now (length y.old) k (k + 4) hi (length panel.now) }
    ensures { vec y.new ≡ columns_lost (naturals blocks.now)
        (view (length y.old) panel.now) hi 4 k (vec y.old) }
{
    lose_columns(panel, blocks, y, k, k + 4, hi);
}

// Columns k to k + 3.
fn lose_together(panel: &[f64], blocks: &[u8], y: &mut [f64], k: usize)
    requires { TogetherPre blocks.now (length y.old) k (length panel.now) }
    ensures { vec y.new ≡ columns_lost (naturals blocks.now)
        (view (length y.old) panel.now) (length y.old) 4 k (vec y.old) }
{
    let hi = diagonal::past_four(k, y.len());
    lose_beside(panel, blocks, y, k, hi);
    lose_four(panel, y, k, hi);
}

// The first 4·q columns, by fours.
fn lose_by_fours(panel: &[f64], blocks: &[u8], y: &mut [f64], q: usize)
    requires forward_pre { ForwardPre blocks.now (length y.old) (length panel.now) }
    requires q_in_bounds { 4 * q ≤ length y.old }
    ensures { vec y.new ≡ columns_lost (naturals blocks.now)
        (view (length y.old) panel.now) (length y.old) (4 * q) 0 (vec y.old) }
{
    for f in 0..q {
        lose_together(panel, blocks, y, 4 * f);
    }
}

// in: panel, n·n numbers, column-major, L below the diagonal and outside of the blocks; blocks, n sound block bytes.
// in and out: y, n numbers: each loses L times those before it, by rising position.
pub fn forward(panel: &[f64], blocks: &[u8], y: &mut [f64])
    requires { ForwardPre blocks.now (length y.old) (length panel.now) }
    ensures { vec y.new ≡ forward_from (naturals blocks.now)
        (view (length y.old) panel.now) (length y.old) 0 (vec y.old) }
{
    let n = y.len();
    let q = n / 4;
    lose_by_fours(panel, blocks, y, q);
    lose_columns(panel, blocks, y, 4 * q, n, n);
}
