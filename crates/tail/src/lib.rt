// The rows below a finished panel: its steps in turn, two at a time, read off the arrays that the panel step wrote.
// What is lent to a step is the panel from row ke of its first column on: nothing above row ke of that column can be
// named. A reader may rely on the contract of apply_bk_panel_trailing: each row from ke down goes through the model's
// steps, and nothing else changes.
#![tactic(auto)]

ghost use Rattle.std.specs.Prelude.{◌≡◌, ◌+◌, ◌-◌, ◌<◌, ◌≤◌, eqb, length};
ghost use Rattle.std.specs.Int.{w64};
ghost use Rattle.std.proofs.Common.{Fits};
ghost use Rattle.model.specs.Matrix.{column_start, view, naturals};
ghost use Rattle.model.specs.Step.{first_of, arrived};
ghost use Rattle.model.specs.Kept.{Starts};
ghost use Rattle.whole.specs.Whole.{below};
ghost use Rattle.tail.specs.Tail.{blocks_in, partners_in, part_from, from_column};
ghost use Rattle.tail.specs.Tail.{step_in, both_steps_in, steps_left_in};
ghost use Rattle.tail.specs.Tail.{sizes_in, read_in, StepsPre, HerePre, BeginsPre, BothPre, LentPre};

use diagonal::{block_begins, diagonal_at, past};
use grid::{column_start, columns};
use model::{DiagonalLists, Elim, Frame, LocalRow};
use pairs::{Taken, below_pair, below_step};
use swept::Part;

// What a panel's steps are read from: its multipliers and, by column, the diagonal and the partners.
#[derive(Clone, Copy)]
pub struct Steps<'a> {
    pub mult: &'a [f64],
    pub diagonal: DiagonalLists<'a>,
    pub partners: &'a [u16],
}

// A partner, as it is listed.
fn listed_row(partner: u16) -> LocalRow
    ensures { result.0 ≡ partner }
{
    LocalRow(usize::from(partner))
}

// What stands at k in the list of partners: at a pivot's first column the row exchanged with its last column, at a
// block's second column the one exchanged with its first column before.
fn partner(partners: &[u16], k: Elim) -> LocalRow
    requires { k.0 < length partners.now }
    ensures { result.0 ≡ naturals partners.now k.0 }
{
    let at = k.0;
    listed_row(partners[at])
}

// The column in which the exchange with a row stands, in a part that begins at k.
fn column_from(k: Elim, row: LocalRow) -> usize
    requires { k.0 ≤ row.0 }
    ensures { result ≡ row.0 - k.0 }
{
    row.0 - k.0
}

// Where row i of column j stands, in a panel of nrow rows.
fn place(nrow: usize, i: usize, j: usize) -> usize
    requires { Fits w64 (i + column_start nrow j) }
    ensures { result ≡ i + column_start nrow j }
{
    i + column_start(nrow, j)
}

// What is lent of a panel to the steps from k on: its rows from ke down, from column k on.
fn lent_from(at: Frame, k: Elim) -> Part
    requires { (at.ke ≤ at.nrow) × (k.0 ≤ at.ke) }
    ensures { result ≡ part_from at k.0 }
{
    Part {
        nrow: at.nrow,
        rows: at.nrow - at.ke,
        nb: at.nb,
        columns: at.ke - k.0,
    }
}

// The exchange before the step at k: of a block's first column, where its row is another.
fn arrive(part: &mut [f64], steps: Steps, at: Frame, k: Elim)
    requires lent_pre { LentPre at.nrow at.ke k.0 (length part.old) }
    requires ke_in_bounds { (at.ke ≤ length steps.diagonal.blocks.now) × (at.ke ≤ length steps.partners.now) }
    requires here_pre { HerePre at.ke (blocks_in steps) (partners_in steps) k.0 }
    ensures { view at.nrow part.new
        ≡ below 0 (at.nrow - at.ke)
        (from_column k.0 (arrived (blocks_in steps.entry) (partners_in steps.entry) k.0))
        (view at.nrow part.old) }
{
    if block_begins(steps.diagonal.blocks, k) {
        let p = partner(steps.partners, Elim(k.0 + 1));
        columns::exchange(part, at.nrow, 0, column_from(k, p), 0, at.nrow - at.ke);
    }
}

// Whether the step at l makes no exchange before its own.
fn stays(steps: Steps, ke: usize, l: Elim) -> bool
    requires l_lt_ke { (l.0 < ke) × ((ke ≤ length steps.diagonal.blocks.now) × (ke ≤ length steps.partners.now)) }
    requires here_pre { HerePre ke (blocks_in steps) (partners_in steps) l.0 }
    ensures { result
        ≡ eqb (first_of (blocks_in steps.entry) (partners_in steps.entry) l.0) l.0 }
{
    if block_begins(steps.diagonal.blocks, l) {
        let p = partner(steps.partners, Elim(l.0 + 1));
        return p.0 == l.0;
    }
    true
}

// The step at k on the rows from ke down. The part begins with them, in column k.
fn tail_step(part: &mut [f64], steps: Steps, at: Frame, k: Elim)
    requires lent_pre { LentPre at.nrow at.ke k.0 (length part.old) }
    requires read_pre { read_in at k.0 steps }
    requires here_pre { HerePre at.ke (blocks_in steps) (partners_in steps) k.0 }
    ensures { view at.nrow part.new
        ≡ below 0 (at.nrow - at.ke) (from_column k.0 (step_in at steps.entry k.0))
        (view at.nrow part.old) }
{
    arrive(part, steps, at, k);
    let pivot = diagonal_at(steps.diagonal, k);
    let kp = partner(steps.partners, k);
    let first = Taken {
        pivot,
        row: column_from(k, kp),
    };
    let start = place(at.nb, k.0 - at.kb, k.0 - at.kb);
    below_step(part, &steps.mult[start..], lent_from(at, k), first);
}

// The steps at k and, right after it, at l, which makes no exchange before its own, on the rows from ke down. The part
// begins with them, in column k.
fn tail_pair(part: &mut [f64], steps: Steps, at: Frame, k: Elim, l: Elim)
    requires lent_pre { LentPre at.nrow at.ke k.0 (length part.old) }
    requires read_pre { read_in at k.0 steps }
    requires both_pre { BothPre at.ke (blocks_in steps) (partners_in steps) k.0 l.0 }
    ensures { view at.nrow part.new
        ≡ below 0 (at.nrow - at.ke) (from_column k.0 (both_steps_in at steps.entry k.0 l.0))
        (view at.nrow part.old) }
{
    arrive(part, steps, at, k);
    let x = diagonal_at(steps.diagonal, k);
    let y = diagonal_at(steps.diagonal, l);
    let kp = partner(steps.partners, k);
    let kq = partner(steps.partners, l);
    let first = Taken {
        pivot: x,
        row: column_from(k, kp),
    };
    let second = Taken {
        pivot: y,
        row: column_from(k, kq),
    };
    let last = past(steps.diagonal.blocks, l) - 1;
    let start = place(at.nb, k.0 - at.kb, k.0 - at.kb);
    let mult = &steps.mult[start..];
    below_pair(
        part,
        mult,
        lent_from(at, k),
        l.0 - k.0,
        last - k.0,
        first,
        second,
    );
}

// The step at k on the rows from ke down, together with the one after it unless there is none or it makes an exchange
// before its own: the panel from row ke of column k on is lent to them. The answer is the column after them.
fn one_or_two_steps(panel: &mut [f64], steps: Steps, at: Frame, k: Elim) -> usize
    requires tail_pre { sizes_in at (length panel.old) steps }
    requires steps_pre { StepsPre at.kb at.ke (blocks_in steps) (partners_in steps) }
    requires begins_pre { BeginsPre at.kb at.ke (blocks_in steps) k.0 }
    ensures panel_after { below at.ke at.nrow (steps_left_in at steps.entry result) (view at.nrow panel.new)
        ≡ below at.ke at.nrow (steps_left_in at steps.entry k.0) (view at.nrow panel.old) }
    ensures lower_bound { (k.0 < result) × Starts (blocks_in steps.entry) result }
{
    let start = place(at.nrow, at.ke, k.0);
    let l = past(steps.diagonal.blocks, k);
    if l < at.ke {
        if stays(steps, at.ke, Elim(l)) {
            tail_pair(&mut panel[start..], steps, at, k, Elim(l));
            return past(steps.diagonal.blocks, Elim(l));
        }
    }
    tail_step(&mut panel[start..], steps, at, k);
    l
}

// The rows from ke down after the panel of columns kb to ke. Blocks and pairs of steps say where the next turn begins,
// so the loop has no step that a range could count.
// in: steps / in and out: panel
// origin: src/numeric/ldlt/bunch_kaufman.rs, fn apply_bk_panel_trailing
// (Not inlined: in one function with the panel's steps the compiler keeps these loops' variables on the stack.)
#[inline(never)]
pub fn apply_bk_panel_trailing(panel: &mut [f64], steps: Steps, at: Frame)
    requires tail_pre { sizes_in at (length panel.old) steps }
    requires steps_pre { StepsPre at.kb at.ke (blocks_in steps) (partners_in steps) }
    ensures { view at.nrow panel.new
        ≡ below at.ke at.nrow (steps_left_in at steps.entry at.kb) (view at.nrow panel.old) }
{
    let ke = at.ke;
    let mut k = at.kb;
    while k < ke {
        k = one_or_two_steps(panel, steps, at, Elim(k));
    }
}
