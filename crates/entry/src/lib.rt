// The factor call's entry checks, refusals 1 to 6 in their order. They read the settings, the lengths
// of the eleven buffers and the input, and write nothing. A length is worked out only once the shape and the width are
// sound, so that no product overflows. Tests are joined by `&`, not `&&`: they are plain comparisons, and without a
// branch the whole test is the definition's own.
#![tactic(auto)]

ghost use Rattle.std.specs.Prelude.{◌≡◌, length};
ghost use Rattle.model.specs.Matrix.{view};
ghost use Rattle.model.specs.Factor.{lengths_sound, mode_check, columns_check, settings_check};
ghost use Rattle.model.specs.Answer.{or_else};
ghost use Rattle.entry.specs.Entry.{LengthsPre};

use model::{LIMIT_MAX, Lengths, Mode, Refusal, Settings, WIDTH_MAX};

// Refusal 3's test, the last buffers first.
fn lengths_sound(c: Settings, n: Lengths) -> bool
    requires { LengthsPre c.ncol c.nrow c.nb }
    ensures { result ≡ lengths_sound c n }
{
    let area = c.nrow * c.ncol;
    let tail = c.nrow - c.ncol;
    let work = 3 * c.nrow * (c.nb + 1) + c.nb * c.nb;
    let rows = (n.order == c.nrow) & ((n.marks == tail) & (n.work == work));
    let lifts = (n.lifts == c.ncol) & ((n.amounts == c.ncol) & ((n.tests == c.ncol) & rows));
    let pivots = (n.d == c.ncol) & ((n.sub == c.ncol) & ((n.blocks == c.ncol) & lifts));
    (n.input == area) & ((n.panel == area) & pivots)
}

// Refusals 4 and 5.
fn check_mode(mode: Mode, limit: usize) -> Result<(), Refusal>
    ensures { result ≡ mode_check mode limit }
{
    let Mode::Lift(floor) = mode else {
        return Ok(());
    };
    if !(scalar::is_finite(floor) & (0.0 < floor)) {
        return Err(Refusal::Floor);
    }
    if !((1 <= limit) & (limit <= LIMIT_MAX)) {
        return Err(Refusal::Limit);
    }
    Ok(())
}

// Refusals 1 to 5.
fn check_settings(c: Settings, n: Lengths) -> Result<(), Refusal>
    ensures { result ≡ settings_check c n }
{
    if !checks::shape_sound(c.ncol, c.nrow) {
        return Err(Refusal::Shape);
    }
    if !((1 <= c.nb) & (c.nb <= WIDTH_MAX)) {
        return Err(Refusal::Width);
    }
    if !lengths_sound(c, n) {
        return Err(Refusal::Length);
    }
    check_mode(c.mode, c.limit)
}

// Refusals 1 to 6.
// in: the settings, the lengths of the eleven buffers, and the input itself
pub fn check(c: Settings, n: Lengths, input: &[f64]) -> Result<(), Refusal>
    requires { n.input ≡ length input.now }
    ensures { result ≡ or_else (settings_check c n)
        (columns_check (view c.nrow input.now) c.nrow c.ncol 0) }
{
    check_settings(c, n)?;
    scan::first_not_finite(input, c.ncol, c.nrow)
}
