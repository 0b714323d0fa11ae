// The checks that several calls share: the shape of a node (factor, assembly, update, solve), the block bytes (inertia,
// update, solve), and numbers that have to be finite (assembly, solve).
// A reader may rely on each being the definition's (model, specs/Factor.antt, specs/Inertia.antt, specs/Assembly.antt),
// whatever is asked.
#![tactic(auto)]

ghost use Rattle.std.specs.Prelude.{◌≡◌, ◌<◌, ℕ, length};
ghost use Rattle.model.specs.Matrix.{naturals};
ghost use Rattle.model.specs.Factor.{shape_sound};
ghost use Rattle.model.specs.Inertia.{byte_sound, check_bytes};
ghost use Rattle.model.specs.Assembly.{first_not};
ghost use Rattle.model.specs.declared.Refusal.{Refusal};
ghost use Rattle.checks.specs.Finite.{finite_at, refused_at};

use model::{COLUMNS_MAX, Elim, ROWS_MAX, Refusal};

// Whether a node may have so many columns and rows.
pub fn shape_sound(ncol: usize, nrow: usize) -> bool
    ensures { result ≡ shape_sound ncol nrow }
{
    (ncol <= COLUMNS_MAX) & ((nrow <= ROWS_MAX) & (ncol <= nrow))
}

// The byte at k is 0 or 1, and a 1 stands neither last nor right before another 1.
#[tactic(auto, unfolding(model::specs::Inertia::byte_sound, model::specs::Matrix::naturals))]
fn byte_sound(blocks: &[u8], k: usize) -> bool
    requires { k < length blocks.now }
    ensures { result ≡ byte_sound (naturals blocks.now) (length blocks.now) k }
{
    if 1 < blocks[k] {
        return false;
    }
    if blocks[k] != 1 {
        return true;
    }
    if k + 1 == blocks.len() {
        return false;
    }
    blocks[k + 1] != 1
}

// Refusal 16: the first block byte that is not sound.
pub fn first_bad_byte(blocks: &[u8]) -> Result<(), Refusal>
    ensures { result ≡ check_bytes blocks.now }
{
    // by places, as a byte is looked at with the one after it
    for k in 0..blocks.len() {
        if !byte_sound(blocks, k) {
            return Err(Refusal::BlockByte(Elim(k)));
        }
    }
    Ok(())
}

// Where the first number stands that is not finite. The call says which refusal that is.
pub fn first_bad_number(numbers: &[f64]) -> Option<usize>
    ensures { (at : ℕ → Refusal) → refused_at at result ≡ first_not (finite_at numbers.now) at (length numbers.now) 0 }
{
    numbers.iter().position(|x| !scalar::is_finite(*x))
}
