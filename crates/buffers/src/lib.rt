// The factor call's buffers: as they begin before the first panel, and zeros after a run refusal; and an order as it
// begins. A reader may rely on the contracts: equations with the definitions, of whole buffers.
#![tactic(auto)]

ghost use Rattle.std.specs.Prelude.{◌≡◌, length};
ghost use Rattle.model.specs.Factor.{lent_in, zeros, SameLent};
ghost use Rattle.buffers.specs.Buffers.{in_order, begun_of};

use model::LentBuffers;

// Place i holds i.
pub fn in_order(order: &mut [usize])
    ensures { order.new ≡ in_order (length order.old) }
{
    for (i, place) in order.iter_mut().enumerate() {
        *place = i;
    }
}

// The buffers before the first panel.
// in: input; out: all but the marks and the working buffer, which stay
// origin: src/numeric/ldlt/bunch_kaufman.rs, fn ll_cdiv_emit
pub fn begin(input: &[f64], b: &mut LentBuffers)
    requires { length b.old.panel.now ≡ length input.now }
    ensures same { SameLent b.old b.new }
    ensures begun { lent_in b.new ≡ begun_of input.now (lent_in b.old) }
{
    b.panel.copy_from_slice(input);
    b.d.fill(0.0);
    b.sub.fill(0.0);
    b.blocks.fill(0);
    b.lifts.fill(0);
    b.amounts.fill(0.0);
    b.tests.fill(0);
    in_order(b.order);
}

// What a run refusal (7, 8, 9, 23 or 24) leaves: every output and the working buffer hold zeros.
// out: all ten
// (Inlined: as a call it would have every factor call, refused or not, store the buffers' addresses on the stack.)
#[inline(always)]
pub fn zero_all(b: &mut LentBuffers)
    ensures same { SameLent b.old b.new }
    ensures zeros { lent_in b.new ≡ zeros (lent_in b.old) }
{
    b.panel.fill(0.0);
    b.d.fill(0.0);
    b.sub.fill(0.0);
    b.blocks.fill(0);
    b.lifts.fill(0);
    b.amounts.fill(0.0);
    b.tests.fill(0);
    b.order.fill(0);
    b.marks.fill(0);
    b.work.fill(0.0);
}
