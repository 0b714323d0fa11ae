// A call's answer as plain numbers, and a mode of a flag and a floor: what callers go by that know numbers alone, the C
// interface and the record of answers. A reader may rely on each outcome being the numbers of what the answer says
// (specs/Numbers.antt), a refusal's as crate refusal has them.
#![tactic(auto)]

ghost use Rattle.std.specs.Prelude.{◌≡◌};
ghost use Rattle.model.specs.Answer.{factored_says, counted_says, applied_says};
ghost use Rattle.outcome.specs.Numbers.{mode_of, refused_as, reported_as};
ghost use Rattle.outcome.specs.Numbers.{factor_numbers, inertia_numbers, panel_numbers};

use model::{Mode, Refusal, Report, Tally};
use refusal::NumberAndPlace;

// What a call answers. Number 0 is acceptance: a factor call has the rounds of all block lifts and the inertia, an
// inertia call the inertia, every other call neither. Any other number is the refusal's, with its place a, b.
// What a call does not have is 0.
#[repr(C)]
#[derive(Clone, Copy, PartialEq, Eq)]
pub struct Outcome {
    pub number: usize,
    pub a: usize,
    pub b: usize,
    pub rounds: usize,
    pub positive: usize,
    pub negative: usize,
    pub zero: usize,
}

// A refusal, and nothing counted.
fn refused_as(w: NumberAndPlace) -> Outcome
    ensures { result ≡ refused_as w.number w.a w.b }
{
    Outcome {
        number: w.number,
        a: w.a,
        b: w.b,
        rounds: 0,
        positive: 0,
        negative: 0,
        zero: 0,
    }
}

// Acceptance, with rounds and counts.
fn reported_as(rounds: usize, t: Tally) -> Outcome
    ensures { result ≡ reported_as rounds t }
{
    Outcome {
        number: 0,
        a: 0,
        b: 0,
        rounds,
        positive: t.positive,
        negative: t.negative,
        zero: t.zero,
    }
}

// Of a factor call.
impl From<Result<Report, Refusal>> for Outcome {
    ghost from_gives = { λ answer r. r ≡ factor_numbers (factored_says answer) };

    fn from(answer: Result<Report, Refusal>) -> Outcome {
        match answer {
            Ok(report) => reported_as(report.rounds, report.inertia),
            Err(why) => refused_as(why.into()),
        }
    }
}

// Of an inertia call.
impl From<Result<Tally, Refusal>> for Outcome {
    ghost from_gives = { λ answer r. r ≡ inertia_numbers (counted_says answer) };

    fn from(answer: Result<Tally, Refusal>) -> Outcome {
        match answer {
            Ok(t) => reported_as(0, t),
            Err(why) => refused_as(why.into()),
        }
    }
}

// Of every other call.
impl From<Result<(), Refusal>> for Outcome {
    ghost from_gives = { λ answer r. r ≡ panel_numbers (applied_says answer) };

    fn from(answer: Result<(), Refusal>) -> Outcome {
        match answer {
            Ok(()) => reported_as(
                0,
                Tally {
                    positive: 0,
                    negative: 0,
                    zero: 0,
                },
            ),
            Err(why) => refused_as(why.into()),
        }
    }
}

// Lift with the floor where the flag is set, else Fail. (A flag and a floor, and no From: so the C interface has them.)
pub fn mode_of(lift: bool, floor: f64) -> Mode
    ensures { result ≡ mode_of lift floor }
{
    if lift { Mode::Lift(floor) } else { Mode::Fail }
}
