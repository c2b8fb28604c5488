ghost use Rattle.std.specs.Prelude.{◌≡◌};
ghost use Rattle.seq_store.specs.declared.fault.DrawFault.TheVariants.{Memory};

use nvm_model::NvmFault;

/// Why a store was not started.
#[derive(Clone, Copy, Debug, PartialEq, Eq)]
pub enum StoreFault {
    /// The first value that the memory does not have is kept at this place.
    Unformatted(usize),
    /// The memory was not read.
    Memory(NvmFault),
    /// There was no memory for the marks. Nothing was read.
    NoMemory,
}

/// A store that was not started, and its memory as it is.
#[derive(Drop)]
pub struct StoreRefused<M> {
    pub fault: StoreFault,
    pub memory: M,
}

/// Why no number was drawn.
#[derive(Clone, Copy, Debug, PartialEq, Eq)]
pub enum DrawFault {
    /// All numbers below 2^48 are drawn.
    Exhausted,
    /// The reservation was not raised.
    Memory(NvmFault),
}

impl From<NvmFault> for DrawFault {
    ghost from_gives = { λ fault e. e ≡ Memory fault };

    fn from(fault: NvmFault) -> DrawFault {
        DrawFault::Memory(fault)
    }
}
