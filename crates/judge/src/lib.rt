// The result of a run, judged: refusal 9 and zeros, or accepted with marks, counts and a working buffer of +0.0. A
// reader may rely on the contract of `judge`: its answer and every lent buffer are `judge_of` of specs/Judge.antt.
#![tactic(auto)]

ghost use Rattle.std.specs.Prelude.{◌≡◌, length};
ghost use Rattle.model.specs.Factor.{lent_in, SameLent};
ghost use Rattle.judge.specs.Judge.{outcome_of, judge_of, JudgePre};

use model::{DiagonalLists, LentBuffers, Refusal, Report, Settings};
use total::Summed;

// The result judged: zeros and refusal 9, or accepted. One pass over the panel's lower positions comes first, for the
// head and the marks.
pub fn judge(c: Settings, rounds: usize, b: &mut LentBuffers) -> Result<Report, Refusal>
    requires { JudgePre c.nrow c.ncol (length b.old.panel.now) (length b.old.d.now) (length b.old.sub.now)
        (length b.old.marks.now) b.old.blocks.now }
    ensures same { SameLent b.old b.new }
    ensures judged { outcome_of result (lent_in b.new) ≡ judge_of c.nrow c.ncol rounds (lent_in b.old) }
{
    let panel = &mut *b.panel;
    let d = &mut *b.d;
    let sub = &mut *b.sub;
    let blocks = &mut *b.blocks;
    let s = Summed::new(panel, c.ncol, c.nrow);
    let x = DiagonalLists { d, sub, blocks };
    if let Err(r) = soundness::first_unsound(s, x) {
        buffers::zero_all(b);
        return Err(r);
    }
    let marks = &mut *b.marks;
    scan::marks_of(s, marks);
    let inertia = inertia::tally(x);
    b.work.fill(0.0);
    Ok(Report { rounds, inertia })
}
