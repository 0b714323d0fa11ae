// The multipliers' buffer, nb by nb, by the panel's own rows and columns: row j of column c stands at row j − kb of
// column c − kb. What is kept is for the rows below the panel. A reader may rely on the contracts: no other number of
// the buffer changes within the panel.
ghost use Rattle.std.specs.Prelude.{◌≡◌, length};
ghost use Rattle.model.specs.Matrix.{view, with_column};
ghost use Rattle.kernels.specs.Rules.{times, combined};
ghost use Rattle.grid.specs.Rules.{column_of};
ghost use Rattle.eliminate.specs.Eliminate.{in_panel, KeepPre, SourcePre};

use grid::column_start;
use model::Frame;

// Rows lo up to ke of column c become those of the panel times r.
pub fn keep_one(mult: &mut [f64], panel: &[f64], at: Frame, c: usize, lo: usize, r: f64)
    requires keep_pre { KeepPre at.nb at.kb at.ke c lo (length mult.old) }
    requires source_pre { SourcePre at.nrow at.ke c (length panel.now) }
    ensures { in_panel at.kb at.ke (view at.nb mult.new)
        ≡ with_column (in_panel at.kb at.ke (view at.nb mult.old)) c lo at.ke
        (times (column_of (view at.nrow panel.now) c) r) }
{
    let top = lo - at.kb;
    let end = at.ke - at.kb;
    let kept = column_start(at.nb, c - at.kb);
    let source = column_start(at.nrow, c);
    kernels::scale(
        &mut mult[top + kept..end + kept],
        &panel[lo + source..at.ke + source],
        end - top,
        r,
    );
}

// Rows lo up to ke of column c become (p·s − q·t)·r, where s and t are those of the panel's columns c and t.
pub fn keep_two(
    mult: &mut [f64],
    panel: &[f64],
    at: Frame,
    c: usize,
    t: usize,
    lo: usize,
    p: f64,
    q: f64,
    r: f64,
)
    requires keep_pre { KeepPre at.nb at.kb at.ke c lo (length mult.old) }
    requires source_pre { SourcePre at.nrow at.ke c (length panel.now) }
    requires source_pre_2 { SourcePre at.nrow at.ke t (length panel.now) }
    ensures { in_panel at.kb at.ke (view at.nb mult.new)
        ≡ with_column (in_panel at.kb at.ke (view at.nb mult.old)) c lo at.ke
        (combined (column_of (view at.nrow panel.now) c)
        (column_of (view at.nrow panel.now) t) p q r) }
{
    let top = lo - at.kb;
    let end = at.ke - at.kb;
    let kept = column_start(at.nb, c - at.kb);
    let source = column_start(at.nrow, c);
    let second = column_start(at.nrow, t);
    kernels::combine(
        &mut mult[top + kept..end + kept],
        &panel[lo + source..at.ke + source],
        &panel[lo + second..at.ke + second],
        end - top,
        p,
        q,
        r,
    );
}
