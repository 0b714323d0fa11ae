// A step: the pivot at k chosen, settled by the mode, exchanged and eliminated in the panel's rows.
// Its equation is `try_of` of crates/model/specs/Head.antt; where it refuses, what the panel holds is not promised.
// origin: src/numeric/ldlt/bunch_kaufman.rs, fn ll_bk_panel_step
#![tactic(auto)]

ghost use Rattle.std.specs.Prelude.{◌≡◌, ◌+◌, length};
ghost use Rattle.model.specs.Matrix.{view, exchanged};
ghost use Rattle.greatest.specs.Greatest.{Within};
ghost use Rattle.model.specs.Head.{try_of};
ghost use Rattle.eliminate.specs.Eliminate.{in_panel};
ghost use Rattle.model.specs.Step.{block_in};
ghost use Rattle.step.specs.Answers.{tried, by_mode, single_of, two_of};
ghost use Rattle.step.specs.Terms.{StepPre, PivotPre, BlockPre, LimitPre, TakenIn};

use model::{
    Block, Choice, Chosen, Diagonal, Elim, Frame, LocalRow, Mode, Pivot, PivotTest, Pivoting,
    Refusal, Unfit,
};
use rule::PivotRule;

// The block at k and k + 1.
fn block_at(panel: &[f64], at: Frame, k: Elim) -> Block
    requires { BlockPre at.nrow at.ncol k.0 (length panel.now) }
    ensures { result ≡ block_in (view at.nrow panel.now) k.0 }
{
    let d11 = grid::get(panel, at.nrow, k.0, k.0);
    let d21 = grid::get(panel, at.nrow, k.0 + 1, k.0);
    let d22 = grid::get(panel, at.nrow, k.0 + 1, k.0 + 1);
    diagonal::block_of(d11, d21, d22)
}

// A 1x1 pivot as chosen, from its row kp: settled by the mode, exchanged with k, eliminated.
fn single(
    panel: &mut [f64],
    mult: &mut [f64],
    at: Frame,
    k: Elim,
    chosen: Chosen,
    mode: Mode,
) -> Result<Pivot, Refusal>
    requires { PivotPre at k.0 k.0 chosen.kp.0 (length panel.old) (length mult.old) }
    ensures { tried result (view at.nrow panel.new)
        (in_panel at.kb at.ke (view at.nb mult.new))
        ≡ single_of at.ke (view at.nrow panel.old)
        (in_panel at.kb at.ke (view at.nb mult.old)) mode k.0 chosen }
{
    let row = chosen.kp;
    let own = grid::get(panel, at.nrow, row.0, row.0);
    let Some(settled) = settle::settle_one(mode, own) else {
        return Err(Refusal::ZeroPivot(k));
    };
    exchange::exchange_if(panel, at, LocalRow(k.0), row);
    eliminate::head_one(panel, mult, at, k, settled.d);
    Ok(Pivot {
        chosen,
        diagonal: Diagonal::One(settled.d),
        lift: settled.lift,
        rounds: 0,
    })
}

// A block at k and k + 1 as chosen: its row kp exchanged with k + 1, settled by the mode, eliminated. Its row p was
// exchanged with k before.
fn block(
    panel: &mut [f64],
    mult: &mut [f64],
    at: Frame,
    k: Elim,
    chosen: Chosen,
    how: Pivoting,
) -> Result<Pivot, Refusal>
    requires { PivotPre at k.0 (k.0 + 1) chosen.kp.0 (length panel.old) (length mult.old) }
    ensures { tried result (view at.nrow panel.new)
        (in_panel at.kb at.ke (view at.nb mult.new))
        ≡ two_of at.ke (view at.nrow panel.old)
        (in_panel at.kb at.ke (view at.nb mult.old)) how.mode how.limit k.0 chosen }
{
    let second = k.0 + 1;
    exchange::exchange_if(panel, at, LocalRow(second), chosen.kp);
    let own = block_at(panel, at, k);
    let settled = match settle::settle_two(how.mode, how.limit, own) {
        Ok(settled) => settled,
        Err(Unfit::Low) => return Err(Refusal::LowBlock(k)),
        Err(Unfit::OutOfRounds) => return Err(Refusal::Rounds(k)),
    };
    eliminate::head_two(panel, mult, at, k, settled.block);
    Ok(Pivot {
        chosen,
        diagonal: Diagonal::Two(settled.block),
        lift: settled.lift,
        rounds: settled.rounds,
    })
}

// A block as chosen: its row p exchanged with k, then the block.
fn moved_block(
    panel: &mut [f64],
    mult: &mut [f64],
    at: Frame,
    k: Elim,
    chosen: Chosen,
    how: Pivoting,
) -> Result<Pivot, Refusal>
    requires pivot_pre { PivotPre at k.0 (k.0 + 1) chosen.kp.0 (length panel.old) (length mult.old) }
    requires within { Within k.0 at.ke chosen.p.0 }
    ensures { tried result (view at.nrow panel.new)
        (in_panel at.kb at.ke (view at.nb mult.new))
        ≡ two_of at.ke (exchanged k.0 chosen.p.0 at.ke (view at.nrow panel.old))
        (in_panel at.kb at.ke (view at.nb mult.old)) how.mode how.limit k.0 chosen }
{
    exchange::exchange_if(panel, at, LocalRow(k.0), chosen.p);
    block(panel, mult, at, k, chosen, how)
}

// What the mode makes of the choice at k: in Lift a zero column is a 1x1 from its own row. (With `_ => choice` the
// compiler tells the cases apart once more in each step: heads took 2 to 4 in 100 longer.)
fn by_mode(choice: Choice, mode: Mode, k: Elim) -> Choice
    ensures { result ≡ by_mode mode k choice }
{
    match choice {
        Choice::ZeroColumn => match mode {
            Mode::Fail => Choice::ZeroColumn,
            Mode::Lift(_) => {
                Choice::Single(rule::with_row(PivotTest::ZeroColumn, k, LocalRow(k.0)))
            }
        },
        Choice::Single(chosen) => Choice::Single(chosen),
        Choice::Block(chosen) => Choice::Block(chosen),
    }
}

// The step at k.
pub fn step(
    panel: &mut [f64],
    mult: &mut [f64],
    at: Frame,
    k: Elim,
    how: Pivoting,
) -> Result<Pivot, Refusal>
    requires step_pre { StepPre at k.0 k.0 (length panel.old) (length mult.old) }
    requires limit_pre { LimitPre how.mode how.limit }
    ensures mult_after { tried result (view at.nrow panel.new)
        (in_panel at.kb at.ke (view at.nb mult.new))
        ≡ try_of at.ke (view at.nrow panel.old)
        (in_panel at.kb at.ke (view at.nb mult.old)) how k.0 }
    ensures taken_in { TakenIn at.ke k.0 result }
{
    let choice = PivotRule::choose(panel, at, k);
    match by_mode(choice, how.mode, k) {
        Choice::ZeroColumn => Err(Refusal::ZeroColumn(k)),
        Choice::Single(chosen) => single(panel, mult, at, k, chosen, how.mode),
        Choice::Block(chosen) => moved_block(panel, mult, at, k, chosen, how),
    }
}
