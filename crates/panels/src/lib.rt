// The panels of a node in turn: of each its steps, the rows below it, the later columns. A reader may rely on the
// contract of `panels`: what it leaves in the lent buffers is `whole_panels_of` of crates/whole/specs/Whole.antt, the
// model's run over all rows, or the refusal that stopped it.
#![tactic(auto)]

ghost use Rattle.std.specs.Prelude.{◌≡◌, ◌+◌, ◌-◌, ◌*◌, ◌≤◌, min, length, take};
ghost use Rattle.model.specs.Sizes.{most_columns, widest_panel};
ghost use Rattle.model.specs.Matrix.{view, naturals};
ghost use Rattle.model.specs.Step.{diagonals_in, recorded_in, SameRecord, row_after_steps};
ghost use Rattle.model.specs.Head.{panel_of};
ghost use Rattle.model.specs.Factor.{pivoting_of};
ghost use Rattle.whole.specs.Whole.{below, deferred_rows, whole_panels_of};
ghost use Rattle.eliminate.specs.Eliminate.{in_panel};
ghost use Rattle.tail.specs.Tail.{StepsPre};
ghost use Rattle.bunch_kaufman.specs.Slices.{state};
ghost use Rattle.bunch_kaufman.specs.Answers.{progress};
ghost use Rattle.bunch_kaufman.specs.Terms.{NotedTo, RanTo};
ghost use Rattle.step.specs.Terms.{LimitPre};
ghost use Rattle.panels.specs.Turn.{between, turn_of};
ghost use Rattle.panels.specs.Run.{run_of, RunPre, TurnPre, DiagonalsHold, TurnHolds};

use model::{DiagonalLists, Frame, PivotRecord, Pivoting, Refusal, Settings};
use tail::Steps;

// Where the panel that begins at kb ends.
fn panel_end(kb: usize, nb: usize, ncol: usize) -> usize
    requires { (kb ≤ most_columns) × (nb ≤ widest_panel) }
    ensures { result ≡ min (kb + nb) ncol }
{
    ncol.min(kb + nb)
}

// The panel's steps. The working buffer begins with the multipliers: any may stand there before; those that the rows
// below read are kept by these steps.
fn steps(
    panel: &mut [f64],
    work: &mut [f64],
    r: &mut PivotRecord,
    at: Frame,
    how: Pivoting,
    before: usize,
) -> Result<usize, Refusal>
    requires turn_pre { TurnPre at (length panel.old) (length work.old) }
    requires turn_holds { TurnHolds at.nrow at.ncol r.old }
    requires limit_pre { LimitPre how.mode how.limit }
    requires noted_to { NotedTo at.kb at.ke before (recorded_in r.old) }
    ensures same { SameRecord r.old r.new }
    ensures run { progress result at.ke (state at panel.new (take (at.nb * at.nb) work.new) (recorded_in r.new))
        ≡ panel_of at.ke how (at.ke - at.kb) at.kb (state at panel.old
        (take (at.nb * at.nb) work.old) (recorded_in r.old) before) }
    ensures ran_to { RanTo at.kb at.ke result (recorded_in r.new) }
{
    let square = at.nb * at.nb;
    bunch_kaufman::ll_bk_panel_step(panel, &mut work[0..square], r, at, how, before)
}

// The rows below the panel, by its steps. A root node has none below its last panel, whose pivots are not gone through
// for nothing.
fn rows_below(panel: &mut [f64], work: &[f64], diagonal: DiagonalLists, partners: &[u16], at: Frame)
    requires turn_pre { TurnPre at (length panel.old) (length work.now) }
    requires diagonals_hold { DiagonalsHold at.ncol diagonal }
    requires partners_hold { length partners.now ≡ most_columns }
    requires steps_pre { StepsPre at.kb at.ke (naturals diagonal.blocks.now) (naturals partners.now) }
    ensures { view at.nrow panel.new ≡ below at.ke at.nrow (row_after_steps
        (diagonals_in diagonal.entry) (naturals partners.now)
        (in_panel at.kb at.ke (view at.nb (take (at.nb * at.nb) work.now)))
        at.ke (at.ke - at.kb) at.kb) (view at.nrow panel.old) }
{
    if at.ke == at.nrow {
        return;
    }
    let square = at.nb * at.nb;
    let mult = &work[0..square];
    tail::apply_bk_panel_trailing(
        panel,
        Steps {
            mult,
            diagonal,
            partners,
        },
        at,
    );
}

// The later columns, by the panel's L and D. The working buffer holds L.D.
fn later_columns(panel: &mut [f64], work: &mut [f64], diagonal: DiagonalLists, at: Frame)
    requires turn_pre { TurnPre at (length panel.old) (length work.old) }
    requires diagonals_hold { DiagonalsHold at.ncol diagonal }
    requires closed { naturals diagonal.blocks.now (at.ke - 1) ≡ 1 → ⊥ }
    ensures { view at.nrow panel.new ≡ deferred_rows at.nrow at.ncol
        (diagonals_in diagonal.entry) at.kb at.ke (view at.nrow panel.old) }
{
    if at.ke == at.ncol {
        return;
    }
    let size = at.nb * at.nrow;
    deferred::deferred_update(panel, diagonal, &mut work[0..size], at);
}

// One panel: its steps, the rows below it, the later columns.
fn one_panel(
    panel: &mut [f64],
    work: &mut [f64],
    r: &mut PivotRecord,
    at: Frame,
    how: Pivoting,
    before: usize,
) -> Result<usize, Refusal>
    requires turn_pre { TurnPre at (length panel.old) (length work.old) }
    requires turn_holds { TurnHolds at.nrow at.ncol r.old }
    requires limit_pre { LimitPre how.mode how.limit }
    requires noted_to { NotedTo at.kb at.ke before (recorded_in r.old) }
    ensures same { SameRecord r.old r.new }
    ensures turn { progress result at.ke (between at.nrow panel.new (recorded_in r.new))
        ≡ turn_of how at.nrow at.ncol at.kb at.ke (between at.nrow panel.old (recorded_in r.old)
        before) }
    ensures ran_to { RanTo at.kb at.ke result (recorded_in r.new) }
{
    let rounds = steps(panel, work, r, at, how, before)?;
    let d = &mut *r.d;
    let sub = &mut *r.sub;
    let blocks = &mut *r.blocks;
    let partners = &mut *r.partners;
    let diagonal = DiagonalLists { d, sub, blocks };
    rows_below(panel, work, diagonal, partners, at);
    later_columns(panel, work, diagonal, at);
    Ok(rounds)
}

// The panels in turn, and the rounds of all block lifts.
// in: the settings past the entry checks, with the width that is used / in and out: the buffers as buffers::begin
// leaves them; work, any
// origin: src/numeric/ldlt/bunch_kaufman.rs, fn ll_cdiv_emit
pub fn panels(
    panel: &mut [f64],
    work: &mut [f64],
    r: &mut PivotRecord,
    c: Settings,
) -> Result<usize, Refusal>
    requires run_pre { RunPre c (length panel.old) (length work.old) }
    requires turn_holds { TurnHolds c.nrow c.ncol r.old }
    requires noted_to { NotedTo 0 1 0 (recorded_in r.old) }
    ensures same { SameRecord r.old r.new }
    ensures run { run_of result (between c.nrow panel.new (recorded_in r.new))
        ≡ whole_panels_of (pivoting_of c) c.nrow c.ncol c.nb c.ncol 0
        (between c.nrow panel.old (recorded_in r.old) 0) }
{
    let how = Pivoting {
        mode: c.mode,
        limit: c.limit,
    };
    let mut rounds = 0;
    for kb in (0..c.ncol).step_by(c.nb) {
        let ke = panel_end(kb, c.nb, c.ncol);
        let at = Frame {
            nrow: c.nrow,
            ncol: c.ncol,
            nb: c.nb,
            kb,
            ke,
        };
        rounds = one_panel(panel, work, r, at, how, rounds)?;
    }
    Ok(rounds)
}
