// Refusals 13 to 16 and 18 of an update. A reader may rely on `lists_check` and `first_bad_column`: each answers what
// its definition does, the refusal of the first test that fails.
// Tests are joined by `&`, not `&&`: they are plain comparisons, and without a branch the whole test is the
// definition's own.
#![tactic(auto)]

ghost use Rattle.std.specs.Prelude.{◌≡◌, ◌&&◌, length};
ghost use Rattle.model.specs.Matrix.{naturals};
ghost use Rattle.model.specs.Factor.{every_from};
ghost use Rattle.model.specs.Assembly.{first_not};
ghost use Rattle.model.specs.Update.{update_sound, descendant_sound, number_at};
ghost use Rattle.landing.specs.Nodes.{target_in, descendant_in, NumbersPre};
ghost use Rattle.landing.specs.Rows.{rises_at, stands_at, ColumnsPre};
ghost use Rattle.update_checks.specs.Lists.{lists_check, ColumnPre};

use landing::{Descendant, Target};
use model::{COLUMNS_MAX, Elim, ROWS_MAX, Refusal};

// Refusal 13's test. A length is worked out once the sizes are sound, so that no sum or product overflows.
fn lengths_sound(t: Target, panel: &[f64], k: Descendant) -> bool
    ensures { result ≡ update_sound (target_in t.entry) (descendant_in k.entry) panel.now }
{
    if !checks::shape_sound(t.ncol, t.nrow) {
        return false;
    }
    let nk = k.nk;
    let mk = k.mk;
    if !((nk <= COLUMNS_MAX) & (mk <= ROWS_MAX)) {
        return false;
    }
    let all = nk + mk;
    let pivots = (k.d.len() == nk)
        & ((k.sub.len() == nk) & ((k.blocks.len() == nk) & (k.rows.len() == mk)));
    let panels = (panel.len() == t.nrow * t.ncol)
        & ((t.rows.len() == t.nrow) & ((k.panel.len() == all * nk) & pivots));
    (all <= ROWS_MAX) & panels
}

// Refusal 14's test.
fn target_sound(t: Target) -> bool
    requires { ColumnsPre t.ncol (length t.rows.now) }
    ensures { result
        ≡ (every_from (rises_at (naturals t.entry.rows.now) (length t.entry.rows.now)) (length t.entry.rows.now) 0
        && every_from (stands_at t.entry.first.0 (naturals t.entry.rows.now)) t.entry.ncol 0) }
{
    landing::rising(t.rows) && landing::begins_at(t)
}

// Refusals 13 to 16.
pub fn lists_check(t: Target, panel: &[f64], k: Descendant) -> Result<(), Refusal>
    ensures { result ≡ lists_check (target_in t.entry) (descendant_in k.entry) panel.now }
{
    if !lengths_sound(t, panel, k) {
        return Err(Refusal::UpdateLength);
    }
    if !target_sound(t) {
        return Err(Refusal::TargetRows);
    }
    if !landing::rising(k.rows) {
        return Err(Refusal::DescendantRows);
    }
    checks::first_bad_byte(k.blocks)
}

// Refusal 18's test: the column's d, its subdiagonal under a 1, and its numbers below the head are finite.
fn column_sound(k: Descendant, column: Elim) -> bool
    requires { ColumnPre (descendant_in k) column.0 }
    ensures { result ≡ descendant_sound (descendant_in k.entry) column.0 }
{
    let c = column.0;
    if !scalar::is_finite(k.d[c]) {
        return false;
    }
    if (k.blocks[c] == 1) & !scalar::is_finite(k.sub[c]) {
        return false;
    }
    let all = k.nk + k.mk;
    scan::column_finite(k.panel, all, c, k.nk, all)
}

// Refusal 18: the first column that has a number that is not finite.
pub fn first_bad_column(k: Descendant) -> Result<(), Refusal>
    requires { NumbersPre (descendant_in k) }
    ensures { result ≡ first_not (descendant_sound (descendant_in k.entry)) number_at k.entry.nk 0 }
{
    for c in 0..k.nk {
        let column = Elim(c);
        if !column_sound(k, column) {
            return Err(Refusal::DescendantNumber(column));
        }
    }
    Ok(())
}
