ghost use Rattle.std.specs.Prelude.{◌≡◌, ◌≢◌, Ok, IfOk, IfErr, MatchResult, Err};
ghost use Rattle.key_tables.specs.Build.{NoneTwice};
ghost use Rattle.keyring_reader.specs.Keys.{password_key};
ghost use Rattle.keyring_reader.specs.Keyring.{is_computed, signature_fault, wrapping_of};
ghost use Rattle.keyring_reader.specs.Keyring.{keyring_under, keyring_of, IsFault};
ghost use Rattle.keyring_reader.specs.Shown.{shown_stamps};

use crate::KeyringFault;
use crate::contents::read_contents;
use crate::form::{Stamps, stamps_of};
use crate::keys::{Wrapping, password_key, short_hash, stored_block};
use crate::roles::rows_of;
use crate::signature::signature_of;
use crate::tags::read_tags;
use aes_modes::Key128;
use key_tables::Row;
use std::alloc::Global;
use std::marker::Model;
use tag_text::{Tag, TagFault};

/// A keyring whose signature holds. A contract sees it as its rows.
#[derive(Drop)]
pub struct Keyring {
    rows: Vec<Row>,
}

impl Model for Keyring {
    ghost use Rattle.std.specs.Prelude.{List};
    ghost use Rattle.key_tables.specs.declared.types.Row.{Row};

    ghost Value = { List Row };

    ghost view = { λ keyring. keyring.rows.items };
}

impl Keyring {
    /// The rows: the keys in the order of the document, the roles on groups by ascending group, and the roles on
    /// devices by ascending device.
    pub fn rows(&self) -> &[Row]
        ensures { result.now ≡ self.now }
    {
        &self.rows
    }
}

fn signature_fault(stored: Option<[u8; 16]>, computed: [u8; 16]) -> Option<KeyringFault>
    ensures { result ≡ signature_fault stored computed }
{
    if stored == Some(computed) {
        None
    } else {
        Some(KeyringFault::Signature { stored, computed })
    }
}

// What keys are wrapped under, where the signature is the computed one.
fn wrapping_of(
    alloc: Global,
    key: [u8; 16],
    tags: &[Tag],
    stamps: &Stamps,
) -> Result<Wrapping, KeyringFault>
    ensures wrapping { IfOk result (λ under. wrapping_of key tags.now (shown_stamps stamps.now) ≡ Ok under) }
    ensures fault { IfErr result (λ fault. IsFault fault (wrapping_of key tags.now (shown_stamps stamps.now))) }
{
    let computed = signature_of(alloc, tags, &key)?;
    match signature_fault(stored_block(stamps.signature), computed) {
        Some(fault) => Err(fault),
        None => Ok(Wrapping {
            key: Key128::new(key),
            vector: short_hash(stamps.created.as_bytes()),
        }),
    }
}

/// What the tags of a document say to the holder of the password with this key.
pub(crate) fn keyring_under(
    alloc: Global,
    key: [u8; 16],
    tags: &[Tag],
) -> Result<Keyring, KeyringFault>
    ensures rows { IfOk result (λ keyring. keyring_under key tags.now ≡ Ok keyring) }
    ensures once { IfOk result (λ keyring. NoneTwice keyring) }
    ensures fault { IfErr result (λ fault. IsFault fault (keyring_under key tags.now)) }
{
    let stamps = stamps_of(tags)?;
    let under = wrapping_of(alloc, key, tags, &stamps)?;
    let gathered = read_contents(alloc, &under, tags)?;
    let rows = rows_of(gathered)?;
    Ok(Keyring { rows })
}

/// The keyring of a document's octets and a password.
///
/// It is refused, in this order: because the octets are no element document; because the root element is no `Keyring`,
/// or an element has a text too long to be signed, or the root lacks `Created` or `Signature`; because the signature is
/// another than the computed one; and then for the first element that lacks an attribute, or whose address, or whose
/// key, is none, or that has a second key of a group or a device. No key is used before the signature was found to be
/// the computed one.
pub fn read_keyring(alloc: Global, bytes: &[u8], password: &[u8]) -> Result<Keyring, KeyringFault>
    ensures rows { IfOk result (λ keyring. keyring_of bytes.now password.now ≡ Ok keyring) }
    ensures once { IfOk result (λ keyring. NoneTwice keyring) }
    ensures fault { IfErr result (λ fault. IsFault fault (keyring_of bytes.now password.now)) }
    ensures memory { IfErr result (λ fault. fault ≢ KeyringFault.Tag TagFault.NoMemory) }
{
    let tags = read_tags(alloc, bytes)?;
    keyring_under(alloc, password_key(password), &tags)
}
