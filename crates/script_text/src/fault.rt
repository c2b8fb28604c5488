use knx_base::{Cause, NoMemory};
use std::alloc::{AllocError, AllocFailed};

/// Why a text is no script. Lines are counted from 1.
#[derive(Clone, Copy, Debug, Drop, PartialEq, Eq)]
pub enum ScriptFault {
    Line(u64, Cause),
    /// A line of this kind may not come after the kinds that came before it.
    Order(u64),
    /// The line says again what a line before it says.
    Twice(u64),
    /// As many rows, nodes, objects or events as there may be stand before the line; or the node of the line has too
    /// many lanes.
    TooMany(u64),
    NoMemory,
}

// Why a line is refused, without its number.
#[derive(Clone, Copy, Debug, Drop, PartialEq, Eq)]
pub(crate) enum Refusal {
    Cause(Cause),
    Order,
    Twice,
    TooMany,
    // The node of this line has too many lanes.
    Lanes(u64),
    NoMemory,
}

impl From<Cause> for Refusal {
    ghost use Rattle.std.specs.Prelude.{◌≡◌};
    ghost use Rattle.script_text.specs.declared.fault.Refusal.TheVariants as refusal;

    ghost from_gives = { λ cause given. given ≡ refusal.Cause cause };

    fn from(cause: Cause) -> Refusal {
        Refusal::Cause(cause)
    }
}

impl From<AllocError> for Refusal {
    ghost use Rattle.std.specs.Prelude.{◌≡◌};
    ghost use Rattle.script_text.specs.declared.fault.Refusal.TheVariants as refusal;

    ghost from_gives = { λ _ given. given ≡ refusal.NoMemory };

    fn from(_error: AllocError) -> Refusal {
        Refusal::NoMemory
    }
}

impl From<NoMemory> for Refusal {
    ghost use Rattle.std.specs.Prelude.{◌≡◌};
    ghost use Rattle.script_text.specs.declared.fault.Refusal.TheVariants as refusal;

    ghost from_gives = { λ _ given. given ≡ refusal.NoMemory };

    fn from(_error: NoMemory) -> Refusal {
        Refusal::NoMemory
    }
}

impl<T: Drop> From<AllocFailed<T>> for Refusal {
    ghost use Rattle.std.specs.Prelude.{◌≡◌};
    ghost use Rattle.script_text.specs.declared.fault.Refusal.TheVariants as refusal;

    ghost from_gives = { λ _ given. given ≡ refusal.NoMemory };

    fn from(_error: AllocFailed<T>) -> Refusal {
        Refusal::NoMemory
    }
}
