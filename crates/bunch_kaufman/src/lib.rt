// The panel step: the pivots of columns kb to ke, each chosen, exchanged, eliminated in the rows above ke, and noted.
// A reader may rely on the contract of ll_bk_panel_step: its equation is `panel_of` of crates/model/specs/Head.antt over
// all rows of the panel, so the rows from ke on and the upper positions stay as they are.
#![tactic(auto)]

ghost use Rattle.std.specs.Prelude.{◌≡◌, ◌-◌, length};
ghost use Rattle.model.specs.Step.{recorded_in, SameRecord};
ghost use Rattle.model.specs.Head.{panel_of};
ghost use Rattle.bunch_kaufman.specs.Slices.{state};
ghost use Rattle.bunch_kaufman.specs.Answers.{progress};
ghost use Rattle.bunch_kaufman.specs.Terms.{NotesPre, NotedTo, RanTo};
ghost use Rattle.step.specs.Terms.{PanelPre, LimitPre};

use model::{Elim, Frame, PivotRecord, Pivoting, Refusal};

// The steps of columns kb to ke, a refusal ending them; the rounds of all block lifts so far.
// in: before, the rounds of the columns before kb / in and out: panel, nrow·ncol numbers; mult, the multipliers of this
// panel, nb·nb numbers; r, the record of pivots by column
// origin: src/numeric/ldlt/bunch_kaufman.rs, fn ll_bk_panel_step
pub fn ll_bk_panel_step(
    panel: &mut [f64],
    mult: &mut [f64],
    r: &mut PivotRecord,
    at: Frame,
    how: Pivoting,
    before: usize,
) -> Result<usize, Refusal>
    requires panel_pre { PanelPre at (length panel.old) (length mult.old) }
    requires notes_pre { NotesPre at.ke r.old }
    requires limit_pre { LimitPre how.mode how.limit }
    requires noted_to { NotedTo at.kb at.ke before (recorded_in r.old) }
    ensures same { SameRecord r.old r.new }
    ensures run { progress result at.ke (state at panel.new mult.new (recorded_in r.new))
        ≡ panel_of at.ke how (at.ke - at.kb) at.kb (state at panel.old mult.old (recorded_in r.old)
        before) }
    ensures ran_to { RanTo at.kb at.ke result (recorded_in r.new) }
{
    let mut k = at.kb;
    let mut rounds = before;
    // A block takes two columns, so no range counts the steps.
    while k < at.ke {
        let here = Elim(k);
        let v = step::step(panel, mult, at, here, how)?;
        let e = notes::last_column(here, v.diagonal);
        notes::note(r, here, e, v);
        rounds += v.rounds;
        k = e.0 + 1;
    }
    Ok(rounds)
}
