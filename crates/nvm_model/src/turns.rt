ghost use Rattle.std.specs.Prelude.{◌≡◌, ℕ, ◌+◌, ◌<◌, ◌≤◌, List, [], ◌∷◌, ◌++◌, length, All};
ghost use Rattle.nvm_model.specs.Nvm.{Makes, fault_of};
ghost use Rattle.nvm_model.specs.Piece.{write_of, writes_of};
ghost use Rattle.nvm_model.specs.Plan.{strike, and_then};
ghost use Rattle.nvm_model.specs.Write.{Write, FitsIn};
ghost use Rattle.nvm_model.specs.declared.plan.Plan.{Plan};

use crate::{Nvm, NvmFault};

/// Octets to write, from a place on.
#[derive(Clone, Copy)]
pub struct Piece<'a> {
    pub at: usize,
    pub bytes: &'a [u8],
}

/// Makes writes in turn, up to the first that is not answered Ok.
pub fn write_in_turn<M: Nvm>(
    memory: &mut M,
    first: Piece<'_>,
    rest: &[Piece<'_>],
) -> Result<(), NvmFault>
    requires first_fits { FitsIn (length (M.state memory.old).octets) (write_of first) }
    requires rest_fit { All (λ piece. FitsIn (length (M.state memory.old).octets) (write_of piece)) rest.now }

    ensures makes { Makes (writes_of first.entry rest.now) (fault_of result)
        (M.state memory.old) (M.state memory.new) (M.images memory.old) (M.images memory.new) }

    // Strikes compose: wherever the writes are divided, those behind are made where those in front are answered Ok.
    ensures divides { (front behind : List Write) (plan : Plan) (octets : List ℕ)
        → front ++ behind ≡ writes_of first.entry rest.now
        → strike (writes_of first.entry rest.now) plan octets ≡ and_then (strike front plan octets) (strike behind) }
{
    memory.write(first.at, first.bytes)?;
    for piece in rest {
        if let Err(fault) = memory.write(piece.at, piece.bytes) {
            return Err(fault);
        }
    }
    Ok(())
}
