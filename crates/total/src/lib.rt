// One pass over the lower positions of a panel, that adds them all up: where their sum is finite, each of them is.
// A reader may rely on the contract of `known_finite` and on what a `Summed` holds: its `finite` is true only where
// each lower position is finite. The order of the additions is for speed alone. No upper position (row < column) is
// read: tests/upper.c sees to it, since no contract can say what is not read.
#![tactic(auto)]

ghost use Rattle.std.specs.Prelude.{◌≡◌, ◌+◌, ◌<◌, ◌≤◌, length};
ghost use Rattle.model.specs.Scalar.{zero_f};
ghost use Rattle.model.specs.Matrix.{view, vec};
ghost use Rattle.model.specs.Panel.{sum_from};
ghost use Rattle.grid.specs.Grid.{DownPre};
ghost use Rattle.total.specs.Finite.{every_second, long_sum, sum_of, column_sum, sum_finite, PanelPre, KnownFinite};

// A panel of ncol columns whose lower positions were added up. Where `finite` is true they are finite, the tail among
// them; where it is false nothing is said of them.
#[derive(Clone, Copy)]
pub struct Summed<'a> {
    pub panel: &'a [f64],
    pub ncol: usize,
    pub nrow: usize,
    pub finite: bool,
    pub ghost shape: { PanelPre nrow ncol (length panel.now) },
    pub ghost known: { KnownFinite finite (view nrow panel.now) nrow ncol },
}

// The sum of eight numbers, every second one from i on, added among themselves so that no addition waits for all
// others.
fn every_second(xs: &[f64], i: usize) -> f64
    requires { i + 14 < length xs.now }
    ensures { result ≡ every_second (vec xs.now) i }
{
    ((xs[i] + xs[i + 2]) + (xs[i + 4] + xs[i + 6]))
        + ((xs[i + 8] + xs[i + 10]) + (xs[i + 12] + xs[i + 14]))
}

// A sum of sixteen numbers or more: the first sixteen, then the sixteens that end with the last number. Where the two
// meet, numbers count twice, so that none is left over to be added by itself. Numbers at even and at odd places are
// added apart, so that the machine adds two at a time; a column ends, and does not begin, where it reads two at once.
fn long_sum(xs: &[f64]) -> f64
    requires { 16 ≤ length xs.now }
    ensures { result ≡ long_sum (vec xs.now) (length xs.now) }
{
    let rest = (xs.len() - 1) / 16 * 16;
    let from = xs.len() - rest;
    let mut s = every_second(xs, 0);
    let mut t = every_second(xs, 1);
    for sixteen in xs[from..].chunks_exact(16) {
        s = s + every_second(sixteen, 0);
        t = t + every_second(sixteen, 1);
    }
    s + t
}

// The sum of all numbers, in order.
fn short_sum(xs: &[f64]) -> f64
    ensures { result ≡ sum_from (vec xs.now) 0 (length xs.now) zero_f }
{
    let mut s = 0.0;
    for x in xs {
        s = s + *x;
    }
    s
}

// A sum in which every number is a term.
fn sum_of(xs: &[f64]) -> f64
    ensures { result ≡ sum_of (vec xs.now) (length xs.now) }
{
    if xs.len() < 16 {
        return short_sum(xs);
    }
    long_sum(xs)
}

// A sum of column j from its diagonal down.
fn column_sum(panel: &[f64], nrow: usize, j: usize) -> f64
    requires { DownPre nrow j j nrow (length panel.now) }
    ensures { result ≡ column_sum (view nrow panel.now) nrow j }
{
    let start = grid::column_start(nrow, j);
    let from = j + start;
    let end = nrow + start;
    sum_of(&panel[from..end])
}

// A sum of all lower positions. A column's own sum waits for no other.
fn lower_sum(panel: &[f64], ncol: usize, nrow: usize) -> f64
    requires { PanelPre nrow ncol (length panel.now) }
    ensures { result ≡ sum_from (column_sum (view nrow panel.now) nrow) 0 ncol zero_f }
{
    let mut s = 0.0;
    for j in 0..ncol {
        s = s + column_sum(panel, nrow, j);
    }
    s
}

// Whether the lower positions are known to be finite, by one pass over them: if their sum is, they are, since no sum
// loses an infinity or a not-a-number (`sum-known` of proofs/Finite.antt). False says nothing of them: the sum of
// finite numbers can overflow.
pub fn known_finite(panel: &[f64], ncol: usize, nrow: usize) -> bool
    requires { PanelPre nrow ncol (length panel.now) }
    ensures { result ≡ sum_finite (view nrow panel.now) nrow ncol }
{
    scalar::is_finite(lower_sum(panel, ncol, nrow))
}

impl<'a> Summed<'a> {
    // The panel with what one pass over it tells.
    pub fn new(panel: &'a [f64], ncol: usize, nrow: usize) -> Summed<'a>
        requires { PanelPre nrow ncol (length panel.now) }
        ensures same { result.panel.now ≡ panel.now }
        ensures sizes { (result.ncol ≡ ncol) × (result.nrow ≡ nrow) }
        ensures finite { result.finite ≡ sum_finite (view nrow panel.now) nrow ncol }
    {
        let finite = known_finite(panel, ncol, nrow);
        Summed {
            panel,
            ncol,
            nrow,
            finite,
        }
    }
}
