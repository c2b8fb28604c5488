ghost use Rattle.std.specs.Prelude.{◌≡◌};
ghost use Rattle.keyring_reader.specs.declared.fault.KeyringFault.TheVariants.{NoMemory};

use crate::Attribute;
use knx_base::NoMemory;
use std::alloc::{AllocError, AllocFailed};
use tag_text::TagFault;
use thiserror::Error;

/// Why a keyring is refused. A place is that of an element's `<` in the document.
#[derive(Clone, Copy, Debug, Drop, PartialEq, Eq, Error)]
pub enum KeyringFault {
    /// The octets are no element document.
    #[error("{0}")]
    Tag(TagFault),
    #[error("the root element is no Keyring")]
    NotKeyring,
    /// The element at this place lacks the attribute.
    #[error("no {0} at {1}")]
    Missing(Attribute, usize),
    /// The element at this place has a name or a value of more than 255 octets that is signed.
    #[error("a text too long to be signed at {0}")]
    LongText(usize),
    /// The stored signature, which is None where the text is not the base64 of sixteen octets, is not the computed one.
    #[error("another signature than the computed one")]
    Signature {
        stored: Option<[u8; 16]>,
        computed: [u8; 16],
    },
    /// The element at this place has a key that is not the base64 of sixteen octets.
    #[error("no key at {0}")]
    Key(usize),
    /// The element at this place has an address that is none.
    #[error("no address at {0}")]
    Address(usize),
    /// The element at this place has the group or the device of a key before it.
    #[error("twice at {0}")]
    Twice(usize),
    #[error("out of memory")]
    NoMemory,
}

impl From<AllocError> for KeyringFault {
    ghost from_gives = { λ _ fault. fault ≡ NoMemory };

    fn from(_error: AllocError) -> KeyringFault {
        KeyringFault::NoMemory
    }
}

impl<T: Drop> From<AllocFailed<T>> for KeyringFault {
    ghost from_gives = { λ _ fault. fault ≡ NoMemory };

    fn from(_error: AllocFailed<T>) -> KeyringFault {
        KeyringFault::NoMemory
    }
}

impl From<NoMemory> for KeyringFault {
    ghost from_gives = { λ _ fault. fault ≡ NoMemory };

    fn from(_error: NoMemory) -> KeyringFault {
        KeyringFault::NoMemory
    }
}
