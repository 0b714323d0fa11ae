// The columns of a panel past a pivot, each less the pivot's part: one column a turn. A reader may rely on the
// contracts: no other number changes.
ghost use Rattle.std.specs.Prelude.{◌≡◌, ◌+◌, length};
ghost use Rattle.model.specs.Matrix.{view};
ghost use Rattle.grid.specs.Rules.{column_of};
ghost use Rattle.eliminate.specs.Eliminate.{in_panel, swept_one, swept_two, SweepPre};

use super::Sweep;
use grid::columns;

// Columns k + 1 up to ke, in rows lo up to hi of the lower triangle, lose column k times their multiplier of column k;
// zero multipliers are skipped.
pub fn sweep_one(panel: &mut [f64], mult: &[f64], s: Sweep)
    requires { SweepPre s s.k (length panel.old) (length mult.now) }
    ensures { view s.at.nrow panel.new
        ≡ swept_one (view s.at.nrow panel.old)
        (column_of (in_panel s.at.kb s.at.ke (view s.at.nb mult.now)) s.k) s.k s.at.ke s.lo s.hi }
{
    let at = s.at;
    let k = s.k;
    for j in (k + 1)..at.ke {
        let m = grid::get(mult, at.nb, j - at.kb, k - at.kb);
        columns::less_if(panel, at.nrow, k, j, j.max(s.lo), s.hi, m);
    }
}

// Columns k + 2 up to ke, in rows lo up to hi of the lower triangle, lose column k times their multiplier of column k,
// then column k + 1 times that of column k + 1; none is skipped.
pub fn sweep_two(panel: &mut [f64], mult: &[f64], s: Sweep)
    requires { SweepPre s (s.k + 1) (length panel.old) (length mult.now) }
    ensures { view s.at.nrow panel.new
        ≡ swept_two (view s.at.nrow panel.old)
        (column_of (in_panel s.at.kb s.at.ke (view s.at.nb mult.now)) s.k)
        (column_of (in_panel s.at.kb s.at.ke (view s.at.nb mult.now)) (s.k + 1)) s.k s.at.ke s.lo
        s.hi }
{
    let at = s.at;
    let k = s.k;
    for j in (k + 2)..at.ke {
        let m1 = grid::get(mult, at.nb, j - at.kb, k - at.kb);
        let m2 = grid::get(mult, at.nb, j - at.kb, k + 1 - at.kb);
        columns::less_columns(panel, at.nrow, k, j, j.max(s.lo), s.hi, [m1, m2]);
    }
}
