// The numbers of a chosen pivot, settled by the mode: refused in Fail where they cannot be taken, lifted in Lift where
// they are too small, else as they are. The tests and the roundings are those of model's specs/Head.antt, in their order.
#![tactic(auto)]

ghost use Rattle.std.specs.Prelude.{◌≡◌};
ghost use Rattle.model.specs.Head.{settled_one, settled_two, raised_from, bar_of, lift_step_of};

use model::{Block, Mode, OneSettled, TwoSettled, Unfit};
use rule::PivotRule;

// What a block's determinant must reach in Lift.
fn bar(floor: f64, b: Block) -> f64
    ensures { result ≡ bar_of floor b }
{
    scalar::maximum(floor * floor, PivotRule::growth_floor(b))
}

// What a round of a block's lift adds to both diagonals.
fn lift_step(floor: f64, b: Block) -> f64
    ensures { result ≡ lift_step_of floor b }
{
    scalar::maximum(
        floor,
        rule::scale(b) * square_root::sqrt(PivotRule::GROWTH_EPS),
    )
}

// A block whose diagonals are raised, a step a round, until its determinant is not below the bar. The Rust has no
// limit on the rounds.
fn raised(b: Block, bar: f64, step: f64, limit: usize) -> Result<TwoSettled, Unfit>
    ensures { result ≡ raised_from b bar step limit 1 step }
{
    let mut sum = step;
    for done in 0..limit {
        let block = diagonal::block_of(b.d11 + sum, b.d21, b.d22 + sum);
        if scalar::magnitude(block.det) < bar {
            sum = sum + step;
        } else {
            return Ok(TwoSettled {
                block,
                lift: Some(sum),
                rounds: done + 1,
            });
        }
    }
    Err(Unfit::OutOfRounds)
}

// The number of a 1x1 pivot d, lifted only where it is strictly below the floor; none where the mode refuses a zero.
// origin: src/numeric/ldlt/bunch_kaufman.rs, fn ll_bk_panel_step
pub fn settle_one(mode: Mode, d: f64) -> Option<OneSettled>
    ensures { result ≡ settled_one mode d }
{
    match mode {
        Mode::Fail => {
            if d == 0.0 {
                return None;
            }
        }
        Mode::Lift(floor) => {
            if scalar::magnitude(d) < floor {
                let new = scalar::lift(floor, d);
                return Some(OneSettled {
                    d: new,
                    lift: Some(new - d),
                });
            }
        }
    }
    Some(OneSettled { d, lift: None })
}

// The numbers of a block b, lifted in Lift where its determinant is below the bar.
// origin: src/numeric/ldlt/bunch_kaufman.rs, fn ll_bk_panel_step
pub fn settle_two(mode: Mode, limit: usize, b: Block) -> Result<TwoSettled, Unfit>
    ensures { result ≡ settled_two mode limit b }
{
    let size = scalar::magnitude(b.det);
    match mode {
        Mode::Fail => {
            if size <= PivotRule::growth_floor(b) {
                return Err(Unfit::Low);
            }
        }
        Mode::Lift(floor) => {
            let bar = bar(floor, b);
            if size < bar {
                return raised(b, bar, lift_step(floor, b), limit);
            }
        }
    }
    Ok(TwoSettled {
        block: b,
        lift: None,
        rounds: 0,
    })
}
