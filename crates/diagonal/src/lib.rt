// D, a pivot at a time: a 1x1's number or a block, and how d, subdiagonal and block bytes hold it. Every block is made
// by `block_of`, whether its numbers come from the panel, from a lift or from the lists, so that its determinant is
// worked out in one place and travels with it.
#![tactic(auto)]

ghost use Rattle.std.specs.Prelude.{◌≡◌, ◌+◌, ◌<◌, ◌≤◌, min, length};
ghost use Rattle.model.specs.Sizes.{most_columns};
ghost use Rattle.model.specs.Matrix.{vec, naturals};
ghost use Rattle.model.specs.Step.{block_of, block_at, diagonal_at, begins, ends_block, past_of};
ghost use Rattle.model.specs.Step.{is_block, first_number, last_number, under_number};
ghost use Rattle.model.specs.Head.{last_of};
ghost use Rattle.diagonal.specs.Diagonal.{BlockPre, PivotPre};

use model::{Block, Diagonal, DiagonalLists, Elim};

// ---- a pivot's numbers

// A block with its determinant.
pub fn block_of(d11: f64, d21: f64, d22: f64) -> Block
    ensures { result ≡ block_of d11 d21 d22 }
{
    let det = d11 * d22 - d21 * d21;
    Block { d11, d21, d22, det }
}

// Whether a pivot is a block.
pub fn is_block(x: Diagonal) -> bool
    ensures { result ≡ is_block x }
{
    match x {
        Diagonal::One(_) => false,
        Diagonal::Two(_) => true,
    }
}

// What d holds of a pivot at its first column.
pub fn first_number(x: Diagonal) -> f64
    ensures { result ≡ first_number x }
{
    match x {
        Diagonal::One(d) => d,
        Diagonal::Two(b) => b.d11,
    }
}

// What d holds of it at its last column, which a 1x1 begins at.
pub fn last_number(x: Diagonal) -> f64
    ensures { result ≡ last_number x }
{
    match x {
        Diagonal::One(d) => d,
        Diagonal::Two(b) => b.d22,
    }
}

// What the subdiagonal holds of it at its first column.
pub fn under_number(x: Diagonal) -> f64
    ensures { result ≡ under_number x }
{
    match x {
        Diagonal::One(_) => 0.0,
        Diagonal::Two(b) => b.d21,
    }
}

// ---- read back from the lists

// Whether a block begins at k.
pub fn block_begins(blocks: &[u8], k: Elim) -> bool
    requires { k.0 < length blocks.now }
    ensures { result ≡ begins (naturals blocks.now) k.0 }
{
    blocks[k.0] == 1
}

// Whether k is a block's second column.
pub fn ends_block(blocks: &[u8], k: Elim) -> bool
    requires { k.0 < length blocks.now }
    ensures { result ≡ ends_block (naturals blocks.now) k.0 }
{
    let at = k.0;
    if at == 0 {
        return false;
    }
    blocks[at - 1] == 1
}

// The column after the pivot at k.
pub fn past(blocks: &[u8], k: Elim) -> usize
    requires { k.0 < length blocks.now }
    ensures { result ≡ past_of (naturals blocks.now) k.0 }
{
    if block_begins(blocks, k) {
        return k.0 + 2;
    }
    k.0 + 1
}

// The last column of a pivot at k.
pub fn last_column(k: Elim, block: bool) -> Elim
    requires { k.0 < most_columns }
    ensures { result.0 ≡ last_of k.0 block }
{
    Elim(k.0 + usize::from(block))
}

// Of n columns the first that is past the pivots of columns k to k + 3, whichever of them are blocks, or the end.
pub fn past_four(k: usize, n: usize) -> usize
    requires { k + 4 ≤ n }
    ensures { result ≡ min (k + 5) n }
{
    k + (n - k).min(5)
}

// The block that begins at k.
pub fn block_at(x: DiagonalLists, k: Elim) -> Block
    requires { BlockPre k.0 (length x.d.now) (length x.sub.now) }
    ensures { result ≡ block_at (vec x.entry.d.now) (vec x.entry.sub.now) k.0 }
{
    let d11 = x.d[k.0];
    let d21 = x.sub[k.0];
    let d22 = x.d[k.0 + 1];
    block_of(d11, d21, d22)
}

// The pivot that begins at k.
pub fn diagonal_at(x: DiagonalLists, k: Elim) -> Diagonal
    requires { PivotPre k.0 (length x.d.now) (length x.sub.now) x.blocks.now }
    ensures { result
        ≡ diagonal_at (vec x.entry.d.now) (vec x.entry.sub.now) (naturals x.entry.blocks.now) k.0 }
{
    if block_begins(x.blocks, k) {
        return Diagonal::Two(block_at(x, k));
    }
    Diagonal::One(x.d[k.0])
}
