// Several columns past two pivots, less both pivots' parts by the multipliers that are kept, in one pass where no
// multiplier of a 1x1 is zero; and a multiplier of the row that a column stood in before the second pivot's exchange.
// A reader may rely on the contracts: no other number changes.
#![tactic(auto)]

ghost use Rattle.std.specs.Prelude.{◌≡◌, ℕ, false, not, ◌+◌, ◌<◌, ◌≤◌, length};
ghost use Rattle.model.specs.Matrix.{view, exchanged_place};
ghost use Rattle.grid.specs.Grid.{In};
ghost use Rattle.swept.specs.Swept.{neither_zero, two_of, three_of, single_at, Swept, PairPre};

// What is lent of a panel and of its multipliers: `columns` columns, from the first pivot's to the panel's last, and
// `rows` rows of each, of columns of nrow rows; a column of multipliers has nb. The part begins with the first pivot's
// column in the first row below the panel: row i of column j stands i past where grid's column_start says that column j
// of nrow rows begins, and the multiplier of row j in column c in the same way in columns of nb rows.
#[derive(Clone, Copy)]
pub struct Part {
    pub nrow: usize,
    pub rows: usize,
    pub nb: usize,
    pub columns: usize,
}

// Two pivots in such a part, one right after the other: whether they are blocks; the columns where the second begins
// and ends, l and f, and the column kq that its last one was exchanged with. The first begins in column 0.
#[derive(Clone, Copy)]
pub struct Pair {
    pub at: Part,
    pub block1: bool,
    pub block2: bool,
    pub l: usize,
    pub f: usize,
    pub kq: usize,
}

// f for kq and kq for f.
fn exchanged_place(f: usize, kq: usize, j: usize) -> usize
    ensures { result ≡ exchanged_place f kq j }
{
    if j == f {
        return kq;
    }
    if j == kq {
        return f;
    }
    j
}

// The multiplier in column c of the row that j was before f and kq were exchanged.
pub fn multiplier_before(mult: &[f64], nb: usize, f: usize, kq: usize, j: usize, c: usize) -> f64
    requires { In nb (exchanged_place f kq j) c (length mult.now) }
    ensures { result ≡ view nb mult.now (exchanged_place f kq j) c }
{
    grid::get(mult, nb, exchanged_place(f, kq, j), c)
}

// Whether neither of two multipliers is a zero of either sign.
fn neither_zero(a: f64, b: f64) -> bool
    ensures { result ≡ neither_zero a b }
{
    (a != 0.0) & (b != 0.0)
}

// The multipliers of column j by two 1x1s.
fn two_of(mult: &[f64], pair: Pair, j: usize) -> [f64; 2]
    requires pair_pre { (len : ℕ) × PairPre pair len (length mult.now) }
    requires f_lt_j { (pair.f < j) × (j < pair.at.columns) }
    ensures { result ≡ two_of (view pair.at.nb mult.now) pair.f pair.kq pair.l j }
{
    let first = multiplier_before(mult, pair.at.nb, pair.f, pair.kq, j, 0);
    [first, grid::get(mult, pair.at.nb, j, pair.l)]
}

// The multipliers of column j by a block and a 1x1, whichever stands first, in the order of their three columns.
fn three_of(mult: &[f64], pair: Pair, j: usize) -> [f64; 3]
    requires pair_pre { (len : ℕ) × PairPre pair len (length mult.now) }
    requires kinds { pair.block2 ≡ not pair.block1 }
    requires f_lt_j { (pair.f < j) × (j < pair.at.columns) }
    ensures { result ≡ three_of pair.block1 (view pair.at.nb mult.now) pair.f pair.kq pair.l j }
{
    let first = multiplier_before(mult, pair.at.nb, pair.f, pair.kq, j, 0);
    let own = grid::get(mult, pair.at.nb, j, pair.l);
    if pair.block1 {
        let second = multiplier_before(mult, pair.at.nb, pair.f, pair.kq, j, 1);
        return [first, second, own];
    }
    [first, own, grid::get(mult, pair.at.nb, j, pair.l + 1)]
}

// Which of those three is the 1x1's.
fn single_at(pair: Pair) -> usize
    ensures value { result ≡ single_at pair.block1 }
    ensures below { result < 3 }
{
    if pair.block1 {
        return 2;
    }
    0
}

// Columns j to j + 3 less the parts of two 1x1s, where no multiplier of theirs is zero. The first column left, or None
// where nothing was done.
fn four_singles(part: &mut [f64], mult: &[f64], pair: Pair, j: usize) -> Option<usize>
    requires pair_pre { PairPre pair (length part.old) (length mult.now) }
    requires kinds { (pair.block1 ≡ false) × (pair.block2 ≡ false) }
    requires f_lt_j { (pair.f < j) × (j + 4 ≤ pair.at.columns) }
    ensures { Swept pair part.old part.new mult.now j result }
{
    let a = two_of(mult, pair, j);
    let b = two_of(mult, pair, j + 1);
    let c = two_of(mult, pair, j + 2);
    let d = two_of(mult, pair, j + 3);
    if neither_zero(a[0], a[1])
        & (neither_zero(b[0], b[1]) & (neither_zero(c[0], c[1]) & neither_zero(d[0], d[1])))
    {
        several::less_of(part, pair.at.nrow, pair.at.rows, j, [a, b, c, d]);
        return Some(j + 4);
    }
    None
}

// Columns j and j + 1 less the parts of a block and a 1x1, whichever stands first, where neither multiplier of the 1x1
// is zero. The first column left, or None where nothing was done.
fn block_and_single(part: &mut [f64], mult: &[f64], pair: Pair, j: usize) -> Option<usize>
    requires pair_pre { PairPre pair (length part.old) (length mult.now) }
    requires kinds { pair.block2 ≡ not pair.block1 }
    requires f_lt_j { (pair.f < j) × (j + 2 ≤ pair.at.columns) }
    ensures { Swept pair part.old part.new mult.now j result }
{
    let a = three_of(mult, pair, j);
    let b = three_of(mult, pair, j + 1);
    let one = single_at(pair);
    if neither_zero(a[one], b[one]) {
        several::less_of(part, pair.at.nrow, pair.at.rows, j, [a, b]);
        return Some(j + 2);
    }
    None
}

// Several columns from j on, less both pivots' parts, where the pivots' kinds, the columns left and the multipliers
// allow it. The first column left, or None where nothing was done.
// in: mult / in and out: part
pub fn several_next(part: &mut [f64], mult: &[f64], pair: Pair, j: usize) -> Option<usize>
    requires pair_pre { PairPre pair (length part.old) (length mult.now) }
    requires f_lt_j { (pair.f < j) × (j < pair.at.columns) }
    ensures { Swept pair part.old part.new mult.now j result }
{
    let left = pair.at.columns - j;
    if pair.block1 != pair.block2 {
        if left < 2 {
            return None;
        }
        return block_and_single(part, mult, pair, j);
    }
    if pair.block1 {
        return None;
    }
    if left < 4 {
        return None;
    }
    four_singles(part, mult, pair, j)
}
