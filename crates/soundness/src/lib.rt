// The look at a result after the last column, refusal 9: whether each column's d, subdiagonal, pivot and lower head is
// finite. A reader may rely on the contract of `first_unsound`: its answer is the definition's, the least column that
// is not.
#![tactic(auto)]

ghost use Rattle.std.specs.Prelude.{◌≡◌, ◌<◌, length};
ghost use Rattle.model.specs.Matrix.{view};
ghost use Rattle.model.specs.Step.{diagonals_in};
ghost use Rattle.model.specs.Factor.{pivot_sound, column_sound, result_check};
ghost use Rattle.total.specs.Finite.{column_finite};
ghost use Rattle.soundness.specs.Result.{block_sound, PivotsPre, ResultPre};

use model::{Block, DiagonalLists, Elim, Refusal};
use total::Summed;

// Whether a block's determinant and its reciprocal are finite.
fn block_sound(b: Block) -> bool
    ensures { result ≡ block_sound b }
{
    scalar::is_finite(b.det) & scalar::is_finite(scalar::reciprocal(b.det))
}

// Whether the pivot's own number at k is finite: a 1x1's reciprocal, or what a block's first column answers for.
fn pivot_sound(x: DiagonalLists, k: Elim) -> bool
    requires pivots_pre { PivotsPre (length x.d.now) (length x.sub.now) x.blocks.now }
    requires k_in_bounds { k.0 < length x.d.now }
    ensures { result ≡ pivot_sound (diagonals_in x.entry) k.0 }
{
    if diagonal::block_begins(x.blocks, k) {
        return block_sound(diagonal::block_at(x, k));
    }
    diagonal::ends_block(x.blocks, k) | scalar::is_finite(scalar::reciprocal(x.d[k.0]))
}

// Whether column k of the head is finite from its diagonal down. Where the panel is known to be finite it is not read.
fn head_finite(s: Summed, k: usize) -> bool
    requires { k < s.ncol }
    ensures { result ≡ column_finite (view s.entry.nrow s.entry.panel.now) k k s.entry.ncol }
{
    if s.finite {
        return true;
    }
    scan::column_finite(s.panel, s.nrow, k, k, s.ncol)
}

// Whether column k of the result is finite: d, subdiagonal, pivot, and the head from the diagonal down.
fn column_sound(s: Summed, x: DiagonalLists, k: usize) -> bool
    requires result_pre { ResultPre s.ncol (length x.d.now) (length x.sub.now) x.blocks.now }
    requires k_lt_ncol { k < s.ncol }
    ensures { result
        ≡ column_sound s.entry.ncol (diagonals_in x.entry) (view s.entry.nrow s.entry.panel.now) k }
{
    scalar::is_finite(x.d[k])
        & (scalar::is_finite(x.sub[k]) & (pivot_sound(x, Elim(k)) & head_finite(s, k)))
}

// Refusal 9, an added guard: the least column of the result that holds a number not finite.
// in: the panel, and whether its lower positions are known to be finite; d, subdiagonal and block bytes after the last
// column
pub fn first_unsound(s: Summed, x: DiagonalLists) -> Result<(), Refusal>
    requires { ResultPre s.ncol (length x.d.now) (length x.sub.now) x.blocks.now }
    ensures { result ≡ result_check s.entry.ncol (diagonals_in x.entry)
        (view s.entry.nrow s.entry.panel.now) s.entry.ncol 0 }
{
    for k in 0..s.ncol {
        if !column_sound(s, x, k) {
            return Err(Refusal::NotFinite(Elim(k)));
        }
    }
    Ok(())
}
