ghost use Rattle.std.specs.Prelude.{◌≡◌, ◌≢◌, IfOk, IfErr, Ok};
ghost use Rattle.keyring_reader.specs.Keyring.{tag_fault, tags_of, IsFault};

use crate::KeyringFault;
use std::alloc::Global;
use tag_text::{Tag, TagFault, TagReader};

// A fault of memory is the keyring's own.
fn tag_fault(fault: TagFault) -> KeyringFault
    ensures fault { result ≡ tag_fault fault }
    ensures memory { result ≢ KeyringFault.Tag TagFault.NoMemory }
{
    match fault {
        TagFault::NoMemory => KeyringFault::NoMemory,
        _ => KeyringFault::Tag(fault),
    }
}

/// All starts and ends of the document.
pub(crate) fn read_tags(alloc: Global, bytes: &[u8]) -> Result<Vec<Tag>, KeyringFault>
    ensures tags { IfOk result (λ tags. tags_of bytes.now ≡ Ok tags.items) }
    ensures fault { IfErr result (λ fault. IsFault fault (tags_of bytes.now)) }
    ensures memory { IfErr result (λ fault. fault ≢ KeyringFault.Tag TagFault.NoMemory) }
{
    let mut reader = TagReader::new(bytes);
    let mut tags = Vec::new(alloc);
    'tags: loop {
        match reader.next(alloc) {
            Ok(Tag::Finish) => return Ok(tags),
            Ok(tag) => tags.push(tag)?,
            Err(fault) => return Err(tag_fault(fault)),
        }
    }
}
