// Several later columns of a part of a panel, each less its own multiples of the part's first columns, in one pass:
// those are read once for all of them. The kernel here takes the places where columns begin, and knows nothing else of
// how the columns lie. Each number keeps its operations and their order. A reader may rely on the contracts: no other
// number changes.
#![tactic(auto)]

ghost use Rattle.std.specs.Prelude.{◌≡◌, ℕ, ◌+◌, ◌-◌, ◌<◌, length};
ghost use Rattle.std.specs.Int.{w64};
ghost use Rattle.std.proofs.Common.{Fits};
ghost use Rattle.model.specs.Matrix.{view, vec, naturals};
ghost use Rattle.model.specs.Scalar.{◌⊗◌};
ghost use Rattle.kernels.specs.Rules.{less_all};
ghost use Rattle.several.specs.Several.{list_at, runs_by, runs_less, columns_by, less_of, RunsPre, ColumnsPre};

use grid::places;

// The numbers that stand i past each of the places. Here and below a loop counts to a constant, and is unrolled: walks
// over the arrays side by side would be no plainer.
fn numbers_at<const R: usize>(x: &[f64], from: [usize; R], i: usize) -> [f64; R]
    requires { (v : ℕ) → v < R → naturals from v + i < length x.now }
    ensures { (v : ℕ) → v < R → vec result v ≡ vec x.now (naturals from.entry v + i) }
{
    let mut s = [0.0; R];
    for v in 0..R {
        s[v] = x[from[v] + i];
    }
    s
}

// What the u-th of the runs written loses of the v-th read: that one's number times the written run's own multiplier.
// (A function by itself, so that each product is promised, and not only what is left.)
#[tactic(auto, unfolding(model::specs::Matrix::vec, crate::specs::Several::list_at))]
fn product<const R: usize, const W: usize>(
    s: [f64; R],
    m: &[[f64; R]; W],
    u: usize,
    v: usize,
) -> f64
    requires { (u < W) × (v < R) }
    ensures { result ≡ vec s.entry v ⊗ list_at m.now u v }
{
    s[v] * m[u][v]
}

// y less what the u-th of the runs written loses of each that is read, in turn.
fn less_all<const R: usize, const W: usize>(y: f64, s: [f64; R], m: &[[f64; R]; W], u: usize) -> f64
    requires { u < W }
    ensures { result ≡ less_all R y (vec s.entry) (list_at m.now u) }
{
    let mut left = y;
    for v in 0..R {
        left = left - product(s, m, u, v);
    }
    left
}

// R runs of n numbers are read and W are written, which begin where `from` and `to` say. Number i of each run written
// loses number i of the runs read, in their order, each times the written run's own multiplier. Where R and W are
// constants the loop over i vectorises: no branch, no call.
fn runs_less<const R: usize, const W: usize>(
    x: &mut [f64],
    from: [usize; R],
    to: [usize; W],
    n: usize,
    m: [[f64; R]; W],
)
    requires { RunsPre R W n (length x.old) (naturals from) (naturals to) }
    ensures { vec x.new
        ≡ runs_by (vec x.old) (naturals to.entry) n
        (runs_less R (vec x.old) (naturals from.entry) (naturals to.entry) (list_at m.entry)) W }
{
    for i in 0..n {
        let s = numbers_at(x, from, i);
        for u in 0..W {
            let own = to[u] + i;
            x[own] = less_all(x[own], s, &m, u);
        }
    }
}

// The first `rows` rows of columns j to j + W − 1 lose those of columns 0 to R − 1 in turn, times their own
// multipliers.
pub fn less_of<const R: usize, const W: usize>(
    part: &mut [f64],
    nrow: usize,
    rows: usize,
    j: usize,
    m: [[f64; R]; W],
)
    requires columns_pre { ColumnsPre nrow rows (R - 1) j (j + (W - 1)) (length part.old) }
    requires fits { Fits w64 (j + (W - 1)) }
    requires some { 0 < R }
    ensures { view nrow part.new
        ≡ columns_by (view nrow part.old) j 0 rows
        (less_of R (view nrow part.old) j (list_at m.entry)) W }
{
    let from = places::<R>(nrow, 0, 0);
    let to = places::<W>(nrow, j, 0);
    runs_less(part, from, to, rows, m);
}
