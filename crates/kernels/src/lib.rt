// Loops over n numbers, which vectorise: no branch, no call, and at each place the operations of its rule alone, in
// their order. The operands are separate slices, or stand in the slice that is written, where each n numbers begin at
// a place that the caller names, with what is written further on. A reader may rely on the contracts: what is not among
// the n numbers stays. The loops count i, and n stands beside the slices: two runs of the slice that is written go in
// step, or the first n numbers of slices that go on, and iterators would say neither plainer. (A kernel knows rows of
// numbers alone: a block's numbers come one by one.)
#![tactic(auto)]

ghost use Rattle.std.specs.Prelude.{◌≡◌, ◌+◌, ◌≤◌, length};
ghost use Rattle.model.specs.Matrix.{vec, naturals, with_part};
ghost use Rattle.kernels.specs.Rules.{less_runs, less_each, plus_times, times, combined, blended};
ghost use Rattle.kernels.specs.Rules.{behind, ahead, TwoPre, ThreePre, AheadPre, RunsPre};

// Of the n numbers from q on, number i loses, for u = 0, 1 .. N − 1 in turn, number i of the run that begins at at[u],
// times m[u].
pub fn less_ahead<const N: usize>(x: &mut [f64], at: [usize; N], q: usize, n: usize, m: [f64; N])
    requires { RunsPre N n q (length x.old) (naturals at) }
    ensures { vec x.new
        ≡ with_part (vec x.old) q (q + n)
        (less_runs N (vec x.old) q (naturals at.entry) (vec m.entry)) }
{
    for i in 0..n {
        let mut y = x[q + i];
        for u in 0..N {
            y = y - x[at[u] + i] * m[u];
        }
        x[q + i] = y;
    }
}

// x − s.
pub fn less_each(x: &mut [f64], s: &[f64], n: usize)
    requires { TwoPre n (length x.old) (length s.now) }
    ensures { vec x.new
        ≡ with_part (vec x.old) 0 n (less_each (vec x.old) (vec s.now)) }
{
    for i in 0..n {
        x[i] = x[i] - s[i];
    }
}

// x + g·l.
pub fn plus(x: &mut [f64], g: &[f64], n: usize, l: f64)
    requires { TwoPre n (length x.old) (length g.now) }
    ensures { vec x.new
        ≡ with_part (vec x.old) 0 n (plus_times (vec x.old) (vec g.now) l) }
{
    for i in 0..n {
        x[i] = x[i] + g[i] * l;
    }
}

// s·r.
pub fn scale(x: &mut [f64], s: &[f64], n: usize, r: f64)
    requires { TwoPre n (length x.old) (length s.now) }
    ensures { vec x.new ≡ with_part (vec x.old) 0 n (times (vec s.now) r) }
{
    for i in 0..n {
        x[i] = s[i] * r;
    }
}

// x·r.
pub fn scale_own(x: &mut [f64], n: usize, r: f64)
    requires { n ≤ length x.old }
    ensures { vec x.new ≡ with_part (vec x.old) 0 n (times (vec x.old) r) }
{
    for i in 0..n {
        x[i] = x[i] * r;
    }
}

// (p·s − q·t)·r: twice, with s and t exchanged, a block's two multipliers.
pub fn combine(x: &mut [f64], s: &[f64], t: &[f64], n: usize, p: f64, q: f64, r: f64)
    requires { ThreePre n (length x.old) (length s.now) (length t.now) }
    ensures { vec x.new
        ≡ with_part (vec x.old) 0 n (combined (vec s.now) (vec t.now) p q r) }
{
    for i in 0..n {
        x[i] = (p * s[i] - q * t[i]) * r;
    }
}

// Of the slice's first n numbers s and the n numbers t from p on: (d22·s − d21·t)·r and (d11·t − d21·s)·r.
pub fn combine_own(x: &mut [f64], p: usize, n: usize, d11: f64, d21: f64, d22: f64, r: f64)
    requires { AheadPre n p (length x.old) }
    ensures { vec x.new
        ≡ with_part
        (with_part (vec x.old) 0 n
        (combined (vec x.old) (ahead p (vec x.old)) d22 d21 r)) p (p + n)
        (combined (vec x.old) (behind p (vec x.old)) d11 d21 r) }
{
    for i in 0..n {
        let s = x[i];
        let t = x[p + i];
        x[i] = (d22 * s - d21 * t) * r;
        x[p + i] = (d11 * t - d21 * s) * r;
    }
}

// s·p + t·q: twice, a block's columns of L.D.
pub fn blend(x: &mut [f64], s: &[f64], t: &[f64], n: usize, p: f64, q: f64)
    requires { ThreePre n (length x.old) (length s.now) (length t.now) }
    ensures { vec x.new
        ≡ with_part (vec x.old) 0 n (blended (vec s.now) (vec t.now) p q) }
{
    for i in 0..n {
        x[i] = s[i] * p + t[i] * q;
    }
}
