ghost use Rattle.key_tables.specs.declared.faults.BuildFault.TheVariants.{NoMemory};
ghost use Rattle.std.specs.Prelude.{◌≡◌};

use knx_base::Cause;
use std::alloc::{AllocError, AllocFailed};
use thiserror::Error;

/// Why a list of rows is no tables.
#[derive(Clone, Copy, Debug, Drop, PartialEq, Eq, Error)]
pub enum BuildFault {
    /// The row at this place, counted from 0, is of a group, a device, or a sender on a channel that a row before it is
    /// of.
    #[error("row {0}, counted from 0, says again what a row before it says")]
    Twice(usize),
    /// As many rows as there may be of its kind stand before the row at this place.
    #[error("row {0}, counted from 0, is one too many")]
    TooMany(usize),
    #[error("out of memory")]
    NoMemory,
}

impl From<AllocError> for BuildFault {
    ghost from_gives = { λ _ fault. fault ≡ NoMemory };

    fn from(_error: AllocError) -> BuildFault {
        BuildFault::NoMemory
    }
}

impl<T: Drop> From<AllocFailed<T>> for BuildFault {
    ghost from_gives = { λ _ fault. fault ≡ NoMemory };

    fn from(_error: AllocFailed<T>) -> BuildFault {
        BuildFault::NoMemory
    }
}

/// Why a text is no tables. Lines are counted from 1.
#[derive(Clone, Copy, Debug, Drop, PartialEq, Eq, Error)]
pub enum TablesFault {
    #[error("line {0}: {1}")]
    Line(u64, Cause),
    /// The row of this line is of a group, a device, or a sender on a channel that an earlier row is of.
    #[error("line {0}: twice")]
    Twice(u64),
    /// As many rows as there may be of its kind stand before the row of this line.
    #[error("line {0}: many")]
    TooMany(u64),
    #[error("out of memory")]
    NoMemory,
}
