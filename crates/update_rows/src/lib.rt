// The rows of an update. The descendant's rows from a landing row c on go in parts: acc of a part is summed by crate
// update_sums, and each of its rows of the target's column then loses its acc once. A reader may rely on the contract
// of `update_rows`; crates/update_rows/proofs/Closed.antt says that it is the definition's matrix.
#![tactic(auto)]

ghost use Rattle.std.specs.Prelude.{◌≡◌, ◌+◌, ◌-◌, ◌<◌, length};
ghost use Rattle.model.specs.Matrix.{view, vec, naturals};
ghost use Rattle.grid.specs.Grid.{In};
ghost use Rattle.kernels.specs.Rules.{behind};
ghost use Rattle.landing.specs.Nodes.{target_in, descendant_in};
ghost use Rattle.update_sums.specs.Acc.{from_row, sums_of};
ghost use Rattle.update_rows.specs.Apply.{less_at, less_from, row_applied, rows_applied};
ghost use Rattle.update_rows.specs.Apply.{SubtractPre, ApplyPre, PartPre};

use grid::column_start;
use landing::{Descendant, Target};
use model::{Elim, GlobalRow, LocalRow};
use update_sums::Columns;

// How many of the descendant's rows are worked at a time: their acc is a local array, whatever the most rows are.
const PART: usize = 256;

// x is subtracted at a row and a column.
fn less_at(panel: &mut [f64], nrow: usize, row: LocalRow, column: Elim, x: f64)
    requires { In nrow row.0 column.0 (length panel.old) }
    ensures { view nrow panel.new ≡ less_at (view nrow panel.old) row.0 column.0 x }
{
    let start = column_start(nrow, column.0);
    let at = row.0 + start;
    panel[at] = panel[at] - x;
}

// A column of the target loses acc at the places of the descendant's rows lo up to hi.
fn subtract(
    panel: &mut [f64],
    nrow: usize,
    column: Elim,
    places: &[u16],
    acc: &[f64],
    lo: usize,
    hi: usize,
)
    requires { SubtractPre nrow column.0 places.now lo hi (length panel.old) (length acc.now) }
    ensures { view nrow panel.new ≡ less_from (naturals places.now)
        (behind lo (vec acc.now)) column.0 (hi - lo) lo (view nrow panel.old) }
{
    // by places, since acc begins with row lo's
    for r in lo..hi {
        less_at(
            panel,
            nrow,
            LocalRow(usize::from(places[r])),
            column,
            acc[r - lo],
        );
    }
}

// The landing row c's part in a column of the target, at rows lo up to hi of the descendant.
// work: acc, a number for each of these rows, any on entry.
fn update_part(
    t: Target,
    panel: &mut [f64],
    k: Descendant,
    places: &[u16],
    acc: &mut [f64],
    c: usize,
    column: Elim,
    lo: usize,
    hi: usize,
)
    requires apply_pre { ApplyPre (target_in t) (descendant_in k) places.now c (length panel.old) }
    requires part_pre { PartPre t.ncol k.mk c column.0 lo hi (length acc.old) }
    ensures { view t.entry.nrow panel.new ≡ less_from (naturals places.now)
        (from_row (sums_of (descendant_in k.entry) k.entry.nk (k.entry.nk + c)) k.entry.nk) column.0 (hi - lo) lo
        (view t.entry.nrow panel.old) }
{
    let nk = k.nk;
    let columns = Columns {
        panel: k.panel,
        rows: nk + k.mk,
        columns: nk,
        d: k.d,
        sub: k.sub,
        blocks: k.blocks,
    };
    update_sums::sum(acc, columns, LocalRow(nk + c), nk + lo, nk + hi);
    subtract(panel, t.nrow, column, places, acc, lo, hi);
}

// Row c of the descendant, if it lands.
// work: acc, PART numbers, any on entry.
fn update_row(
    t: Target,
    panel: &mut [f64],
    k: Descendant,
    places: &[u16],
    acc: &mut [f64],
    c: usize,
)
    requires apply_pre { ApplyPre (target_in t) (descendant_in k) places.now c (length panel.old) }
    requires krows_len { (length k.rows.now ≡ k.mk) × (c < k.mk) × (length acc.old ≡ 256) }
    ensures { view t.entry.nrow panel.new ≡ row_applied t.entry.first.0 t.entry.ncol
        (descendant_in k.entry) (naturals places.now) c (view t.entry.nrow panel.old) }
{
    let g = GlobalRow(k.rows[c]);
    if !landing::lands(t, g) {
        return;
    }
    let column = landing::column_of(t, g);
    let mk = k.mk;
    let mut lo = c;
    // a part begins where the one before it ended, as in deferred, and for the reason said there
    while lo < mk {
        let hi = lo + PART.min(mk - lo);
        update_part(t, panel, k, places, acc, c, column, lo, hi);
        lo = hi;
    }
}

// The descendant's rows from `start` on, each if it lands.
pub fn update_rows(t: Target, panel: &mut [f64], k: Descendant, places: &[u16], start: usize)
    requires apply_pre { ApplyPre (target_in t) (descendant_in k) places.now start (length panel.old) }
    requires krows_len { length k.rows.now ≡ k.mk }
    ensures { view t.entry.nrow panel.new ≡ rows_applied t.entry.first.0 t.entry.ncol
        (descendant_in k.entry) (naturals places.now) (k.entry.mk - start) start (view t.entry.nrow panel.old) }
{
    let mut acc = [0.0; PART];
    for c in start..k.mk {
        update_row(t, panel, k, places, &mut acc, c);
    }
}
