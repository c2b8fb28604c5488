ghost use Rattle.std.specs.Prelude.{◌≡◌, ◌+◌, ◌<◌, ◌≤◌, length, OnOk};
ghost use Rattle.nvm_model.specs.Gate.{is_open, gated_writes, IsGatedMoment, IsOpenOver};
ghost use Rattle.nvm_model.specs.Nvm.{Makes, LeavesOnly, fault_of};

use crate::{Nvm, NvmFault, Piece, write_in_turn};

/// The octet of a gate that is open. Any other is that of a gate that is not.
pub const OPEN: u8 = 0xA5;

const SHUT: u8 = 0x00;

/// Writes a body behind a gate so that what the gate is open over is at each moment the old octets or the whole body:
/// shuts the gate if it is open, writes the body, opens the gate.
pub fn write_gated<M: Nvm>(
    memory: &mut M,
    gate: usize,
    was_open: bool,
    body: &[u8],
) -> Result<(), NvmFault>
    requires inside { gate + 1 + length body.now ≤ length (M.state memory.old).octets }
    requires not_empty { 0 < length body.now }
    requires tells_the_gate { was_open ≡ is_open (M.state memory.old).octets gate }

    ensures makes { Makes (gated_writes gate was_open body.now) (fault_of result)
        (M.state memory.old) (M.state memory.new) (M.images memory.old) (M.images memory.new) }
    ensures any_moment { LeavesOnly (M.state memory.old).clock (M.images memory.old) (M.images memory.new)
        (IsGatedMoment gate body.now (M.state memory.old).octets) }
    ensures opened { OnOk result (IsOpenOver gate body.now (M.state memory.new).octets) }
{
    let body = Piece {
        at: gate + 1,
        bytes: body,
    };
    let open = Piece {
        at: gate,
        bytes: &[OPEN],
    };
    if was_open {
        let shut = Piece {
            at: gate,
            bytes: &[SHUT],
        };
        write_in_turn(memory, shut, &[body, open])
    } else {
        write_in_turn(memory, body, &[open])
    }
}
