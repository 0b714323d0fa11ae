// A later column of a part of a panel less the parts of one pivot or of two, in one pass: the operations of each number
// are those of the pivots one after the other, in their order. The first pivot stands in the part's first columns, the
// second right after it. A reader may rely on the contracts of less_step and less_both: no other number changes.
// (Whether a pivot is a block is a flag here and above, as `is_block` of the definitions is: an enum of two cases would
// be a second word for it. A part's nrow and rows stay two numbers: a struct of two for one crate is no
// plainer.)
#![tactic(auto)]

ghost use Rattle.std.specs.Prelude.{◌≡◌, ◌+◌, length};
ghost use Rattle.model.specs.Matrix.{view, vec, with_column};
ghost use Rattle.model.specs.Head.{last_of};
ghost use Rattle.grid.specs.Rules.{column_of, less_times_if, less_two, LaterPre};
ghost use Rattle.less.specs.Less.{stepped, stepped_twice};

use grid::columns;

// Column j less the part of the first pivot, by its multipliers m; of a 1x1 the second is not read.
pub fn less_step(part: &mut [f64], block: bool, nrow: usize, rows: usize, j: usize, m: [f64; 2])
    requires { LaterPre nrow (last_of 0 block) j 0 rows (length part.old) }
    ensures { view nrow part.new
        ≡ with_column (view nrow part.old) j 0 rows
        (stepped block (view nrow part.old) 0 j (vec m 0) (vec m 1)) }
{
    if block {
        columns::less_columns::<2>(part, nrow, 0, j, 0, rows, m);
        return;
    }
    columns::less_if(part, nrow, 0, j, 0, rows, m[0]);
}

// Column j less the parts of two 1x1s; a zero multiplier is skipped.
fn less_singles(part: &mut [f64], nrow: usize, rows: usize, j: usize, m: [f64; 2])
    requires { LaterPre nrow 1 j 0 rows (length part.old) }
    ensures { view nrow part.new
        ≡ with_column (view nrow part.old) j 0 rows
        (less_times_if
        (less_times_if (column_of (view nrow part.old) j) (column_of (view nrow part.old) 0) (vec m 0))
        (column_of (view nrow part.old) 1) (vec m 1)) }
{
    if m[0] == 0.0 {
        columns::less_if(part, nrow, 1, j, 0, rows, m[1]);
        return;
    }
    if m[1] == 0.0 {
        columns::less_if(part, nrow, 0, j, 0, rows, m[0]);
        return;
    }
    columns::less_columns::<2>(part, nrow, 0, j, 0, rows, m);
}

// Column j less the parts of a 1x1 and of the block after it. (Apart from the next one: what may be skipped is
// innermost in this formula and outermost in that one.)
fn less_single_block(part: &mut [f64], nrow: usize, rows: usize, j: usize, m: [f64; 3])
    requires { LaterPre nrow 2 j 0 rows (length part.old) }
    ensures { view nrow part.new
        ≡ with_column (view nrow part.old) j 0 rows
        (less_two
        (less_times_if (column_of (view nrow part.old) j) (column_of (view nrow part.old) 0) (vec m 0))
        (column_of (view nrow part.old) 1) (column_of (view nrow part.old) 2) (vec m 1) (vec m 2)) }
{
    if m[0] == 0.0 {
        columns::less_columns::<2>(part, nrow, 1, j, 0, rows, [m[1], m[2]]);
        return;
    }
    columns::less_columns::<3>(part, nrow, 0, j, 0, rows, m);
}

// Column j less the parts of a block and of the 1x1 after it.
fn less_block_single(part: &mut [f64], nrow: usize, rows: usize, j: usize, m: [f64; 3])
    requires { LaterPre nrow 2 j 0 rows (length part.old) }
    ensures { view nrow part.new
        ≡ with_column (view nrow part.old) j 0 rows
        (less_times_if
        (less_two (column_of (view nrow part.old) j) (column_of (view nrow part.old) 0)
        (column_of (view nrow part.old) 1) (vec m 0) (vec m 1)) (column_of (view nrow part.old) 2)
        (vec m 2)) }
{
    if m[2] == 0.0 {
        columns::less_columns::<2>(part, nrow, 0, j, 0, rows, [m[0], m[1]]);
        return;
    }
    columns::less_columns::<3>(part, nrow, 0, j, 0, rows, m);
}

// Column j less the parts of the first pivot and of the one after it, at l, by two multipliers of each; of a 1x1 the
// second is not read.
pub fn less_both(
    part: &mut [f64],
    block1: bool,
    block2: bool,
    nrow: usize,
    rows: usize,
    l: usize,
    j: usize,
    m: [f64; 4],
)
    requires l_value { l ≡ last_of 0 block1 + 1 }
    requires later_pre { LaterPre nrow (last_of l block2) j 0 rows (length part.old) }
    ensures { view nrow part.new
        ≡ with_column (view nrow part.old) j 0 rows
        (stepped_twice block1 block2 (view nrow part.old) 0 l j (vec m 0) (vec m 1) (vec m 2) (vec m 3)) }
{
    if block1 {
        if block2 {
            columns::less_columns::<4>(part, nrow, 0, j, 0, rows, m);
            return;
        }
        less_block_single(part, nrow, rows, j, [m[0], m[1], m[2]]);
        return;
    }
    if block2 {
        less_single_block(part, nrow, rows, j, [m[0], m[2], m[3]]);
        return;
    }
    less_singles(part, nrow, rows, j, [m[0], m[2]]);
}
