// The factor call: the LDLᵀ factorization of one supernode, refused by number and place or accepted with the factor. A
// reader may rely on the contract of `factor` alone: its answer and every lent buffer are `factor_of` of
// crates/model/specs/Factor.antt, on every input. It asks nothing of its caller.
#![tactic(auto)]

ghost use Rattle.std.specs.Prelude.{◌≡◌, min, max, Ok};
ghost use Rattle.model.specs.Factor.{entry_check, factor_of, lent_in, SameLent};
ghost use Rattle.judge.specs.Judge.{outcome_of};
ghost use Rattle.factor.specs.Run.{Eliminated};

use model::{COLUMNS_MAX, Lengths, LentBuffers, PivotRecord, Refusal, Report, Settings};

// The panel width that is used: no panel is wider than the node.
fn width(nb: usize, ncol: usize) -> usize
    ensures { result ≡ min nb (max ncol 1) }
{
    nb.min(ncol.max(1))
}

// The input copied, then its panels in turn; the rounds of all block lifts.
fn eliminate(c: Settings, input: &[f64], b: &mut LentBuffers) -> Result<usize, Refusal>
    requires { entry_check c input.now (lent_in b.old) ≡ Ok tt }
    ensures same { SameLent b.old b.new }
    ensures eliminated { Eliminated c input.now result (lent_in b.new) }
{
    buffers::begin(input, b);
    let used = Settings {
        nb: width(c.nb, c.ncol),
        ..c
    };
    let panel = &mut *b.panel;
    let d = &mut *b.d;
    let sub = &mut *b.sub;
    let blocks = &mut *b.blocks;
    let lifts = &mut *b.lifts;
    let amounts = &mut *b.amounts;
    let tests = &mut *b.tests;
    let order = &mut *b.order;
    let work = &mut *b.work;
    // a limit's length: there is no heap
    let mut partners = [0u16; COLUMNS_MAX];
    let mut r = PivotRecord {
        d,
        sub,
        blocks,
        partners: &mut partners,
        lifts,
        amounts,
        tests,
        order,
    };
    panels::panels(panel, work, &mut r, used)
}

// Past the entry checks: a refusal of the run zeroes the outputs and returns.
fn run(c: Settings, input: &[f64], b: &mut LentBuffers) -> Result<Report, Refusal>
    requires { entry_check c input.now (lent_in b.old) ≡ Ok tt }
    ensures same { SameLent b.old b.new }
    ensures value { outcome_of result (lent_in b.new) ≡ factor_of c input.now (lent_in b.old) }
{
    match eliminate(c, input, b) {
        Ok(rounds) => judge::judge(c, rounds, b),
        Err(r) => {
            buffers::zero_all(b);
            Err(r)
        }
    }
}

// The factor call.
// in: c, the settings; input, nrow·ncol numbers, column by column; upper positions are copied and never read
// out: panel, nrow·ncol: L with D's own diagonal; d, sub, amounts: ncol numbers; blocks, lifts, tests: ncol bytes;
//      order: nrow rows; marks: nrow − ncol bytes
// work: 3·nrow·(nb + 1) + nb² numbers, any on entry, +0.0 on acceptance
// refused with 1 to 6: nothing is written; with 7, 8, 9, 23 or 24: every output and the working buffer hold zeros
// origin: src/numeric/ldlt/bunch_kaufman.rs, fn ll_cdiv_emit
pub fn factor(c: Settings, input: &[f64], b: &mut LentBuffers) -> Result<Report, Refusal>
    ensures same { SameLent b.old b.new }
    ensures value { outcome_of result (lent_in b.new) ≡ factor_of c input.now (lent_in b.old) }
{
    let n = Lengths {
        input: input.len(),
        panel: b.panel.len(),
        d: b.d.len(),
        sub: b.sub.len(),
        blocks: b.blocks.len(),
        lifts: b.lifts.len(),
        amounts: b.amounts.len(),
        tests: b.tests.len(),
        order: b.order.len(),
        marks: b.marks.len(),
        work: b.work.len(),
    };
    entry::check(c, n, input)?;
    run(c, input, b)
}
