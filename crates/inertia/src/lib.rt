// Inertia: the counts of positive, negative and zero eigenvalues of D, one pivot or block at a time.
// A reader may rely on each count being the definition's (model, specs/Inertia.antt), not-a-number and signed zeros
// included, and on `inertia` answering any three lists: it refuses, or it counts.
#![tactic(auto)]

ghost use Rattle.std.specs.Prelude.{◌≡◌, length};
ghost use Rattle.model.specs.Matrix.{vec, naturals};
ghost use Rattle.model.specs.Answer.{counted_says};
ghost use Rattle.model.specs.Inertia.{more, one_counted, two_counted, tallied_of};
ghost use Rattle.model.specs.Inertia.{inertia_check, inertia_of};
ghost use Rattle.inertia.specs.Count.{counted_of, MorePre, CountPre, TallyPre};

use model::{Block, COLUMNS_MAX, Diagonal, DiagonalLists, Elim, Refusal, Tally};

// ---- the counting rule

// The tally with so many more.
fn added(t: Tally, positive: usize, negative: usize, zero: usize) -> Tally
    requires { MorePre t positive negative zero }
    ensures { result ≡ more t positive negative zero }
{
    Tally {
        positive: t.positive + positive,
        negative: t.negative + negative,
        zero: t.zero + zero,
    }
}

// A 1x1 counts by its sign; a zero of either sign and a not-a-number count as zero.
// origin: src/numeric/ldlt/bunch_kaufman.rs, fn ll_cdiv_emit
#[tactic(auto, unfolding(model::specs::Inertia::one_counted))]
fn counted_one(t: Tally, d: f64) -> Tally
    requires { CountPre t }
    ensures { result ≡ one_counted t d }
{
    if 0.0 < d {
        return added(t, 1, 0, 0);
    }
    if d < 0.0 {
        return added(t, 0, 1, 0);
    }
    added(t, 0, 0, 1)
}

// A block counts by the signs of its determinant, as rounded, and of its trace.
// origin: src/numeric/ldlt/bunch_kaufman.rs, fn ll_cdiv_emit
#[tactic(auto, unfolding(model::specs::Inertia::two_counted))]
fn counted_two(t: Tally, b: Block) -> Tally
    requires { CountPre t }
    ensures { result ≡ two_counted t b }
{
    let trace = b.d11 + b.d22;
    if b.det < 0.0 {
        return added(t, 1, 1, 0);
    }
    if 0.0 < b.det {
        if 0.0 <= trace {
            return added(t, 2, 0, 0);
        }
        return added(t, 0, 2, 0);
    }
    if 0.0 <= trace {
        return added(t, 1, 0, 1);
    }
    added(t, 0, 1, 1)
}

// One pivot or one block more: the rule by its kind.
#[tactic(auto, unfolding(crate::specs::Count::counted_of))]
fn counted(t: Tally, p: Diagonal) -> Tally
    requires { CountPre t }
    ensures { result ≡ counted_of t p }
{
    match p {
        Diagonal::One(d) => counted_one(t, d),
        Diagonal::Two(b) => counted_two(t, b),
    }
}

// The counting step: the running tally is lent, and has one pivot or one block more.
pub fn count(t: &mut Tally, p: Diagonal)
    requires { CountPre t.old }
    ensures { t.new ≡ counted_of t.old p }
{
    *t = counted(*t, p);
}

// ---- all columns

// The counts of all columns, one or two a turn by the block bytes. (The next column is the last pivot's to say, so that
// no range or iterator is plainer than k.)
pub fn tally(x: DiagonalLists) -> Tally
    requires { TallyPre x.d.now x.sub.now x.blocks.now }
    ensures { result ≡ tallied_of (length x.entry.d.now)
        (vec x.entry.d.now) (vec x.entry.sub.now) (naturals x.entry.blocks.now) }
{
    let mut t = Tally {
        positive: 0,
        negative: 0,
        zero: 0,
    };
    let mut k = 0;
    while k < x.d.len() {
        let at = Elim(k);
        count(&mut t, diagonal::diagonal_at(x, at));
        k = diagonal::past(x.blocks, at);
    }
    t
}

// ---- the call

// Refusals 19 and 16.
fn inertia_check(x: DiagonalLists) -> Result<(), Refusal>
    ensures { result ≡ inertia_check x.entry.d.now x.entry.sub.now x.entry.blocks.now }
{
    let n = x.d.len();
    if !((x.sub.len() == n) & ((x.blocks.len() == n) & (n <= COLUMNS_MAX))) {
        return Err(Refusal::InertiaLength);
    }
    checks::first_bad_byte(x.blocks)
}

// in: d, subdiagonal and block bytes, as a factor call emits them; any lists are answered.
// Counts, or refusal 19 or 16.
pub fn inertia(d: &[f64], sub: &[f64], blocks: &[u8]) -> Result<Tally, Refusal>
    ensures { counted_says result ≡ inertia_of d.now sub.now blocks.now }
{
    let x = DiagonalLists { d, sub, blocks };
    inertia_check(x)?;
    Ok(tally(x))
}
