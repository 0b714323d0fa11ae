// A column-major panel: where its columns begin, and one number read and written, here; parts of columns lent to the
// slice kernels in columns.rt. Whoever needs an address asks column_start for it: no other code knows how the columns
// lie. (A panel and its nrow stay two parameters here and above: a struct of both, lent by `&mut`, would have each
// function promise besides that both stay, which is no plainer. The same holds here and above of other buffers that are
// lent together: sizes go into structs, what is lent by `&mut` does not.)
#![tactic(auto)]

ghost use Rattle.std.specs.Prelude.{ℕ, ◌≡◌, ◌+◌, ◌-◌, ◌*◌, ◌<◌, length};
ghost use Rattle.std.specs.Int.{w64};
ghost use Rattle.std.proofs.Common.{Fits};
ghost use Rattle.model.specs.Matrix.{column_start, view, naturals, put_at};
ghost use Rattle.grid.specs.Grid.{In};

pub mod columns;

// Where column j of a panel of nrow rows begins: row i of it stands i further on.
pub fn column_start(nrow: usize, j: usize) -> usize
    requires { Fits w64 (column_start nrow j) }
    ensures { result ≡ column_start nrow j }
{
    j * nrow
}

// Where the numbers of N columns begin: of columns j to j + N − 1, those from row lo on. (By index: N is a constant
// where it is called, and the loop is unrolled.)
pub fn places<const N: usize>(nrow: usize, j: usize, lo: usize) -> [usize; N]
    requires { Fits w64 (j + (N - 1)) × Fits w64 (lo + (j + (N - 1)) * nrow) }
    ensures { (u : ℕ) → u < N → naturals result u ≡ lo + column_start nrow (j + u) }
{
    let mut at = [0; N];
    for u in 0..N {
        at[u] = lo + column_start(nrow, j + u);
    }
    at
}

// The number at row i, column j.
pub fn get(panel: &[f64], nrow: usize, i: usize, j: usize) -> f64
    requires { In nrow i j (length panel.now) }
    ensures { result ≡ view nrow panel.now i j }
{
    let start = column_start(nrow, j);
    panel[i + start]
}

// Writes v at row i, column j, and nothing else.
pub fn put(panel: &mut [f64], nrow: usize, i: usize, j: usize, v: f64)
    requires { In nrow i j (length panel.old) }
    ensures { view nrow panel.new ≡ put_at (view nrow panel.old) i j v }
{
    let start = column_start(nrow, j);
    panel[i + start] = v;
}
