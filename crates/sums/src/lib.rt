// The sums of two later columns for several rows at once, number i for the i-th row. A pass over L.D takes four terms
// of both, whose numbers it loads once; each sum still meets its own terms one by one in their order. A reader may rely
// on the contract of both_sums.
#![tactic(auto)]

ghost use Rattle.std.specs.Prelude.{◌≡◌, ℕ, ◌+◌, ◌-◌, ◌*◌, ◌<◌, ◌≤◌, length};
ghost use Rattle.model.specs.Matrix.{view, vec, naturals, with_part};
ghost use Rattle.kernels.specs.Rules.{zeroed};
ghost use Rattle.sums.specs.Sums.{later_row, rows_from, plus_runs, gathered, FourPre, TermsPre, GatherPre};

use grid::column_start;

// What is summed, in a panel of nrow rows: for the n rows from lo on, the terms of the panel's w columns from kb on, in
// the sums of the later columns c and e.
#[derive(Clone, Copy)]
pub struct Terms {
    pub nrow: usize,
    pub c: usize,
    pub e: usize,
    pub kb: usize,
    pub w: usize,
    pub lo: usize,
    pub n: usize,
}

// L of row r in the panel's columns k to k + 3.
fn four_multipliers(panel: &[f64], nrow: usize, r: usize, k: usize) -> [f64; 4]
    requires { (r < nrow) × (k + 4 ≤ nrow) × ((k + 4) * nrow ≤ length panel.now) }
    ensures { (u : ℕ) → u < 4 → vec result u ≡ view nrow panel.now r (k + u) }
{
    [
        grid::get(panel, nrow, r, k),
        grid::get(panel, nrow, r, k + 1),
        grid::get(panel, nrow, r, k + 2),
        grid::get(panel, nrow, r, k + 3),
    ]
}

// (((x + g0·l0) + g1·l1) + g2·l2) + g3·l3, and the same of y with m; the n numbers of g0 to g3 begin where `at` says.
// The loop vectorises: no branch, no call, no array but the three slices.
fn plus_four(
    x: &mut [f64],
    y: &mut [f64],
    g: &[f64],
    at: [usize; 4],
    n: usize,
    l: [f64; 4],
    m: [f64; 4],
)
    requires { FourPre n (naturals at) (length x.old) (length y.old) (length g.now) }
    ensures x_after { vec x.new
        ≡ with_part (vec x.old) 0 n
        (plus_runs (vec x.old) (naturals at) (vec g.now) (vec l)) }
    ensures y_after { vec y.new
        ≡ with_part (vec y.old) 0 n
        (plus_runs (vec y.old) (naturals at) (vec g.now) (vec m)) }
{
    let [a, b, c, d] = at;
    let [l0, l1, l2, l3] = l;
    let [m0, m1, m2, m3] = m;
    for i in 0..n {
        let s = g[a + i];
        let t = g[b + i];
        let u = g[c + i];
        let v = g[d + i];
        x[i] = x[i] + s * l0 + t * l1 + u * l2 + v * l3;
        y[i] = y[i] + s * m0 + t * m1 + u * m2 + v * m3;
    }
}

// The sums of both columns gain the terms of the panel's columns t to t + 3, in their order.
fn add_four(x: &mut [f64], y: &mut [f64], g: &[f64], panel: &[f64], at: Terms, t: usize)
    requires terms_pre { TermsPre at at.c t 4 (length x.old) (length g.now) (length panel.now) }
    requires terms_pre_2 { TermsPre at at.e t 4 (length y.old) (length g.now) (length panel.now) }
    ensures x_after { vec x.new
        ≡ with_part (vec x.old) 0 at.n
        (gathered (vec x.old) (rows_from at.lo (view at.nrow g.now))
        (later_row (view at.nrow panel.now) at.c at.kb) t 4) }
    ensures y_after { vec y.new
        ≡ with_part (vec y.old) 0 at.n
        (gathered (vec y.old) (rows_from at.lo (view at.nrow g.now))
        (later_row (view at.nrow panel.now) at.e at.kb) t 4) }
{
    let nrow = at.nrow;
    let kb = at.kb;
    let lo = at.lo;
    let places = grid::places::<4>(nrow, t, lo);
    let l = four_multipliers(panel, nrow, at.c, kb + t);
    let m = four_multipliers(panel, nrow, at.e, kb + t);
    plus_four(x, y, g, places, at.n, l, m);
}

// They gain the terms of the columns before w by fours. The answer is the first column left.
fn gather_fours(x: &mut [f64], y: &mut [f64], g: &[f64], panel: &[f64], at: Terms) -> usize
    requires gather_pre { GatherPre at at.c (length x.old) (length g.now) (length panel.now) }
    requires gather_pre_2 { GatherPre at at.e (length y.old) (length g.now) (length panel.now) }
    ensures x_after { vec x.new
        ≡ with_part (vec x.old) 0 at.n
        (gathered (vec x.old) (rows_from at.lo (view at.nrow g.now))
        (later_row (view at.nrow panel.now) at.c at.kb) 0 result) }
    ensures y_after { vec y.new
        ≡ with_part (vec y.old) 0 at.n
        (gathered (vec y.old) (rows_from at.lo (view at.nrow g.now))
        (later_row (view at.nrow panel.now) at.e at.kb) 0 result) }
    ensures upper_bound { result ≤ at.w }
{
    let end = at.w - at.w % 4;
    for t in (0..end).step_by(4) {
        add_four(x, y, g, panel, at, t);
    }
    end
}

// The same from +0.0.
fn begin_by_fours(x: &mut [f64], y: &mut [f64], g: &[f64], panel: &[f64], at: Terms) -> usize
    requires gather_pre { GatherPre at at.c (length x.old) (length g.now) (length panel.now) }
    requires gather_pre_2 { GatherPre at at.e (length y.old) (length g.now) (length panel.now) }
    ensures x_after { vec x.new
        ≡ with_part (vec x.old) 0 at.n
        (gathered zeroed (rows_from at.lo (view at.nrow g.now))
        (later_row (view at.nrow panel.now) at.c at.kb) 0 result) }
    ensures y_after { vec y.new
        ≡ with_part (vec y.old) 0 at.n
        (gathered zeroed (rows_from at.lo (view at.nrow g.now))
        (later_row (view at.nrow panel.now) at.e at.kb) 0 result) }
    ensures upper_bound { result ≤ at.w }
{
    grid::columns::zero(x, 0, at.n);
    grid::columns::zero(y, 0, at.n);
    gather_fours(x, y, g, panel, at)
}

// The sums of one column gain the term of the panel's column t.
fn add_one(x: &mut [f64], g: &[f64], panel: &[f64], at: Terms, j: usize, t: usize)
    requires { TermsPre at j t 1 (length x.old) (length g.now) (length panel.now) }
    ensures { vec x.new
        ≡ with_part (vec x.old) 0 at.n
        (gathered (vec x.old) (rows_from at.lo (view at.nrow g.now))
        (later_row (view at.nrow panel.now) j at.kb) t 1) }
{
    let nrow = at.nrow;
    let kb = at.kb;
    let lo = at.lo;
    let n = at.n;
    let l = grid::get(panel, nrow, j, kb + t);
    let a = lo + column_start(nrow, t);
    let b = a + n;
    kernels::plus(x, &g[a..b], n, l);
}

// They gain the terms of columns s up to w one by one.
fn gather_ones(x: &mut [f64], g: &[f64], panel: &[f64], at: Terms, j: usize, s: usize)
    requires gather_pre { GatherPre at j (length x.old) (length g.now) (length panel.now) }
    requires s_le_w { s ≤ at.w }
    ensures { vec x.new
        ≡ with_part (vec x.old) 0 at.n
        (gathered (vec x.old) (rows_from at.lo (view at.nrow g.now))
        (later_row (view at.nrow panel.now) j at.kb) s (at.w - s)) }
{
    for t in s..at.w {
        add_one(x, g, panel, at, j, t);
    }
}

// From +0.0 over the w columns of the panel in their order: x the sums of column c, y those of column e.
pub fn both_sums(x: &mut [f64], y: &mut [f64], g: &[f64], panel: &[f64], at: Terms)
    requires gather_pre { GatherPre at at.c (length x.old) (length g.now) (length panel.now) }
    requires gather_pre_2 { GatherPre at at.e (length y.old) (length g.now) (length panel.now) }
    ensures x_after { vec x.new
        ≡ with_part (vec x.old) 0 at.n
        (gathered zeroed (rows_from at.lo (view at.nrow g.now))
        (later_row (view at.nrow panel.now) at.c at.kb) 0 at.w) }
    ensures y_after { vec y.new
        ≡ with_part (vec y.old) 0 at.n
        (gathered zeroed (rows_from at.lo (view at.nrow g.now))
        (later_row (view at.nrow panel.now) at.e at.kb) 0 at.w) }
{
    let s = begin_by_fours(x, y, g, panel, at);
    gather_ones(x, g, panel, at, at.c, s);
    gather_ones(y, g, panel, at, at.e, s);
}
