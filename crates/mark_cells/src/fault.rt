ghost use Rattle.std.specs.Prelude.{◌≡◌};
ghost use Rattle.mark_cells.specs.declared.fault.CellFault.TheVariants.{Memory};

use nvm_model::NvmFault;

/// Why a cell has no number.
#[derive(Clone, Copy, Debug, PartialEq, Eq)]
pub enum CellFault {
    /// No copy of the cell is open.
    Unformatted,
    /// The memory was not read.
    Memory(NvmFault),
}

impl From<NvmFault> for CellFault {
    ghost from_gives = { λ fault e. e ≡ Memory fault };

    fn from(fault: NvmFault) -> CellFault {
        CellFault::Memory(fault)
    }
}
