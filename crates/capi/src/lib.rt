// The C interface, as include/misuktaan.h declares it. Every function is exported under its own name, which begins
// `misuktaan_`, and asks nothing of its caller. A slice is a pointer and a length.
// The leaves are those of crates scalar and square_root, each equal to its definition in model's specs at every number,
// or at all bits.
// The seven calls answer by numbers what model's `factor_of`, `inertia_of`, `assembly_of`, `update_of`, `solve_of`,
// `to_lapack_of` and `from_lapack_of` say, and leave the buffers so.
#![tactic(auto)]

ghost use Rattle.std.specs.Prelude.{◌≡◌};
ghost use Rattle.model.specs.Scalar.{is_finite, magnitude_bits_of, square_of, maximum_of, reciprocal_of, lift_of};
ghost use Rattle.model.specs.Root.{sqrt_of};
ghost use Rattle.model.specs.Factor.{factor_of};
ghost use Rattle.model.specs.Inertia.{inertia_of};
ghost use Rattle.model.specs.Assembly.{assembly_of};
ghost use Rattle.model.specs.Update.{update_of};
ghost use Rattle.model.specs.Solve.{solve_of};
ghost use Rattle.model.specs.Lapack.{to_lapack_of, from_lapack_of};
ghost use Rattle.model.specs.ForthAndBack.{GivesAgain, GivesListAgain};
ghost use Rattle.assembly.specs.Call.{entries_of};
ghost use Rattle.landing.specs.Nodes.{target_of, descendant_of};
ghost use Rattle.solve.specs.Call.{factors_of};
ghost use Rattle.outcome.specs.Numbers.{inertia_numbers};
ghost use Rattle.capi.specs.Left.{settings_of, FactorLeft, factor_left, PanelLeft, panel_left};
ghost use Rattle.capi.specs.Left.{VectorLeft, vector_left, ListLeft, list_left, OrderLeft, order_left};

use assembly::Entries;
use landing::{Descendant, Target};
use model::{DiagonalLists, GlobalRow, LentBuffers, Settings};
use outcome::Outcome;
use solve::Factor;

// ---- leaves

// Whether x is neither a not-a-number nor an infinity.
#[unsafe(no_mangle)]
pub extern "C" fn misuktaan_is_finite(x: f64) -> bool
    ensures { result ≡ is_finite x }
{
    scalar::is_finite(x)
}

// The bits of a magnitude, a not-a-number's too. C and Rust have the bits of every number at hand, and make their
// magnitude of an f64 of this; no contract here could name a not-a-number's.
#[unsafe(no_mangle)]
pub extern "C" fn misuktaan_magnitude_bits(bits: u64) -> u64
    ensures { result ≡ magnitude_bits_of bits }
{
    scalar::magnitude_bits(bits)
}

// x * x, rounded once.
#[unsafe(no_mangle)]
pub extern "C" fn misuktaan_square(x: f64) -> f64
    ensures { result ≡ square_of x }
{
    scalar::square(x)
}

// The greater of the two, the first of equals; of a number and a not-a-number the number.
#[unsafe(no_mangle)]
pub extern "C" fn misuktaan_maximum(a: f64, b: f64) -> f64
    ensures { result ≡ maximum_of a b }
{
    scalar::maximum(a, b)
}

// 1 / x, rounded once.
#[unsafe(no_mangle)]
pub extern "C" fn misuktaan_reciprocal(x: f64) -> f64
    ensures { result ≡ reciprocal_of x }
{
    scalar::reciprocal(x)
}

// d lifted to the floor: d at or above it in magnitude, the floor for a zero, else d scaled up.
#[unsafe(no_mangle)]
pub extern "C" fn misuktaan_lift(floor: f64, d: f64) -> f64
    ensures { result ≡ lift_of floor d }
{
    scalar::lift(floor, d)
}

// The square root, correctly rounded.
#[unsafe(no_mangle)]
pub extern "C" fn misuktaan_sqrt(x: f64) -> f64
    ensures { result ≡ sqrt_of x }
{
    square_root::sqrt(x)
}

// ---- the calls

// One node factored. Lift with this floor where `lift`, else Fail. The definition decides all of it: the answer, and
// what each of the ten buffers holds afterwards.
// in: settings; input, nrow * ncol. out: panel, nrow * ncol; d, sub, blocks, lifted, amounts, tests, ncol each; order,
// nrow; marks, nrow - ncol. work: 3 * nrow * (nb + 1) + nb * nb, any on entry, +0.0 after acceptance.
// (Lists as parameters of their own, in this call and the ones after it: the C interface fixes them.)
#[unsafe(no_mangle)]
pub extern "C" fn misuktaan_factor(
    ncol: usize,
    nrow: usize,
    nb: usize,
    lift: bool,
    floor: f64,
    limit: usize,
    input: &[f64],
    panel: &mut [f64],
    d: &mut [f64],
    sub: &mut [f64],
    blocks: &mut [u8],
    lifted: &mut [u8],
    amounts: &mut [f64],
    tests: &mut [u8],
    order: &mut [usize],
    marks: &mut [u8],
    work: &mut [f64],
) -> Outcome
    ensures { ◌≡◌ {A = FactorLeft} (record {
      outcome = result;
      buffers = record {
        panel = panel.new;
        d = d.new;
        sub = sub.new;
        blocks = blocks.new;
        lifts = lifted.new;
        amounts = amounts.new;
        tests = tests.new;
        order = order.new;
        marks = marks.new;
        work = work.new;
      };
    })
        (factor_left (factor_of (settings_of ncol nrow nb lift floor limit) input.now (record {
          panel = panel.old;
          d = d.old;
          sub = sub.old;
          blocks = blocks.old;
          lifts = lifted.old;
          amounts = amounts.old;
          tests = tests.old;
          order = order.old;
          marks = marks.old;
          work = work.old;
        }))) }
{
    let mode = outcome::mode_of(lift, floor);
    let c = Settings {
        ncol,
        nrow,
        nb,
        mode,
        limit,
    };
    let mut lent = LentBuffers {
        panel,
        d,
        sub,
        blocks,
        lifts: lifted,
        amounts,
        tests,
        order,
        marks,
        work,
    };
    factor::factor(c, input, &mut lent).into()
}

// The inertia of D as a factor call emits it, or refusal 19 or 16.
// in: d, sub, blocks, one length of at most model::COLUMNS_MAX.
#[unsafe(no_mangle)]
pub extern "C" fn misuktaan_inertia(d: &[f64], sub: &[f64], blocks: &[u8]) -> Outcome
    ensures { result ≡ inertia_numbers (inertia_of d.now sub.now blocks.now) }
{
    inertia::inertia(d, sub, blocks).into()
}

// Entries added to a node's panel as they are listed, or refusal 10, 11 or 12 and nothing written.
// in: ncol, nrow; rows, cols, numbers, one length. in and out: panel, nrow * ncol, any on entry.
#[unsafe(no_mangle)]
pub extern "C" fn misuktaan_assemble(
    ncol: usize,
    nrow: usize,
    rows: &[usize],
    cols: &[usize],
    numbers: &[f64],
    panel: &mut [f64],
) -> Outcome
    ensures { ◌≡◌ {A = PanelLeft} (record { outcome = result; panel = panel.new })
        (panel_left (assembly_of ncol nrow
        (entries_of rows.now cols.now numbers.now) panel.old)) }
{
    let entries = Entries {
        rows,
        columns: cols,
        numbers,
    };
    assembly::assemble(ncol, nrow, entries, panel).into()
}

// A factored descendant's update of a target node, or a refusal of 13 to 18 and nothing written.
// in: ncol, nrow, first; rows, nrow; nk, mk; kpanel, (nk + mk) * nk; kd, ksub, kblocks, nk each; krows, mk.
// in and out: panel, nrow * ncol, any on entry.
#[unsafe(no_mangle)]
pub extern "C" fn misuktaan_update(
    ncol: usize,
    nrow: usize,
    first: u32,
    rows: &[u32],
    panel: &mut [f64],
    nk: usize,
    mk: usize,
    kpanel: &[f64],
    kd: &[f64],
    ksub: &[f64],
    kblocks: &[u8],
    krows: &[u32],
) -> Outcome
    ensures { ◌≡◌ {A = PanelLeft} (record { outcome = result; panel = panel.new })
        (panel_left (update_of (target_of ncol nrow first rows.now)
        (descendant_of nk mk kpanel.now kd.now ksub.now kblocks.now
        krows.now) panel.old)) }
{
    let target = Target {
        ncol,
        nrow,
        first: GlobalRow(first),
        rows,
    };
    let descendant = Descendant {
        nk,
        mk,
        panel: kpanel,
        d: kd,
        sub: ksub,
        blocks: kblocks,
        rows: krows,
    };
    update::update(target, panel, descendant).into()
}

// A right side solved by a root node's factor, or refusal 1, 25, 26, 16 or 27 and nothing written.
// in: ncol, nrow, which are equal; panel, ncol * ncol; d, sub, blocks, order, ncol each, as a factor call left them.
// in and out: vector, ncol, the right side and then the solution.
#[unsafe(no_mangle)]
pub extern "C" fn misuktaan_solve(
    ncol: usize,
    nrow: usize,
    panel: &[f64],
    d: &[f64],
    sub: &[f64],
    blocks: &[u8],
    order: &[usize],
    vector: &mut [f64],
) -> Outcome
    ensures { ◌≡◌ {A = VectorLeft} (record { outcome = result; vector = vector.new })
        (vector_left (solve_of ncol nrow (factors_of panel.now d.now sub.now
        blocks.now order.now) vector.old)) }
{
    let diagonals = DiagonalLists { d, sub, blocks };
    let factor = Factor {
        panel,
        diagonals,
        order,
    };
    solve::solve(ncol, nrow, factor, vector).into()
}

// LAPACK's list of pivots for a head's order and block bytes, or refusal 1, 25, 26, 16 or 28 and nothing written. Of
// the list that it makes misuktaan_from_lapack makes order and bytes again.
// in: ncol; order, the head's, and blocks, ncol each. out: list, ncol.
#[unsafe(no_mangle)]
pub extern "C" fn misuktaan_to_lapack(
    ncol: usize,
    order: &[usize],
    blocks: &[u8],
    list: &mut [i32],
) -> Outcome
    ensures left { ◌≡◌ {A = ListLeft} (record { outcome = result; list = list.new })
        (list_left (to_lapack_of ncol order.now blocks.now list.old)) }
    ensures again { result.number ≡ 0 → GivesAgain ncol order.now blocks.now list.new }
{
    lapack::to_lapack(ncol, order, blocks, list).into()
}

// The order and the block bytes that LAPACK's list of pivots stands for, or refusal 1, 25, 30 or 29 and nothing
// written. Of these misuktaan_to_lapack makes the list again.
// in: ncol; list, ncol. out: order, blocks, ncol each.
#[unsafe(no_mangle)]
pub extern "C" fn misuktaan_from_lapack(
    ncol: usize,
    list: &[i32],
    order: &mut [usize],
    blocks: &mut [u8],
) -> Outcome
    ensures left { ◌≡◌ {A = OrderLeft} (record { outcome = result; order = order.new; blocks = blocks.new })
        (order_left (from_lapack_of ncol list.now order.old blocks.old)) }
    ensures again { result.number ≡ 0 → GivesListAgain ncol list.now order.new blocks.new }
{
    lapack::from_lapack(ncol, list, order, blocks).into()
}
