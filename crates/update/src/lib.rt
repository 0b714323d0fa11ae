// A factored descendant's update of a target node: each of its rows that lands on a column of the target subtracts its
// part of L.D.Lᵀ from that column, from the landing row on. Refusals 13 to 16 and 18 are update_checks', 17 is
// landing's, the numbers update_rows'. A reader may rely on `update` answering any arguments: it refuses and writes
// nothing, or the panel is the definition's.
#![tactic(auto)]

ghost use Rattle.std.specs.Prelude.{◌≡◌, length};
ghost use Rattle.model.specs.Update.{update_of};
ghost use Rattle.checks.specs.Answers.{leaves};
ghost use Rattle.landing.specs.Nodes.{target_in, descendant_in};
ghost use Rattle.update.specs.Call.{columns_of, ListsPre};

use landing::{Descendant, Target};
use model::{ROWS_MAX, Refusal};

// Refusals 17 and 18 and the update itself, of a descendant that has columns.
fn update_columns(t: Target, panel: &mut [f64], k: Descendant) -> Result<(), Refusal>
    requires { ListsPre (target_in t) (descendant_in k) (length panel.old) }
    ensures { leaves result panel.new ≡ columns_of (target_in t.entry) (descendant_in k.entry) panel.old }
{
    let start = landing::first_landing(t, k.rows);
    // the walk's one list, of a limit's length since there is no heap: where each of the descendant's rows stands among
    // the target's
    let mut places = [0u16; ROWS_MAX];
    landing::locate(t.rows, k.rows, start, &mut places)?;
    update_checks::first_bad_column(k)?;
    update_rows::update_rows(t, panel, k, &places, start);
    Ok(())
}

// in: t, the target: its columns and rows, the global row of its first column, its global rows.
// in and out: panel, the target's nrow·ncol numbers, column-major; any on entry.
// in: k, the descendant: its columns and rows below them, its panel of (nk + mk)·nk numbers, d, subdiagonal and block
// bytes, and the global rows below its columns.
// Done, or a refusal of 13 to 18.
// origin: src/numeric/ldlt/node.rs, fn ll_factor_node
pub fn update(t: Target, panel: &mut [f64], k: Descendant) -> Result<(), Refusal>
    ensures { leaves result panel.new ≡ update_of (target_in t.entry) (descendant_in k.entry) panel.old }
{
    update_checks::lists_check(t, &panel[..], k)?;
    if k.nk == 0 {
        return Ok(());
    }
    update_columns(t, panel, k)
}
