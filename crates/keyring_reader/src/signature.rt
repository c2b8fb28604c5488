//! The signature that a keyring has to have.

ghost use Rattle.std.specs.Prelude.{◌≡◌, ℕ, List, ◌∷◌, ◌++◌, map, flat_map, IfOk, IfErr, OnOk, Ok};
ghost use Rattle.std.specs.List.{filter};
ghost use Rattle.sha2.specs.Hashers.{Holds256};
ghost use Rattle.keyring_reader.specs.Signed.{is_signed, by_name, sized, signed_attribute, signed_tag, signature_of};
ghost use Rattle.keyring_reader.specs.Texts.{deref_texts};

use crate::form::is_signed;
use crate::keys::{base64_of, block_from};
use knx_base::NoMemory;
use sha2::{Digest, Sha256};
use std::alloc::Global;
use std::collections::BTreeMap;
use tag_text::{Attributes, Tag};

// The length in one octet, and the text.
fn sign_text(hasher: &mut Sha256, text: &[u8])
    ensures { (m : List ℕ) → Holds256 hasher.old m → Holds256 hasher.new (m ++ sized text.now) }
{
    hasher.update(&[(text.len() % 256) as u8][..]);
    hasher.update(text);
}

fn sign_attribute(hasher: &mut Sha256, name: &str, value: &str)
    ensures { (m : List ℕ) → Holds256 hasher.old m → Holds256 hasher.new (m ++ signed_attribute (name.now, value.now)) }
{
    sign_text(hasher, name.as_bytes());
    sign_text(hasher, value.as_bytes());
}

// The signed attributes, by their names.
fn by_name(alloc: Global, attributes: &Attributes) -> Result<BTreeMap<&str, &str>, NoMemory>
    ensures { IfOk result (λ ordered. map deref_texts ordered.entries ≡ by_name (filter is_signed attributes.now)) }
{
    let mut ordered = BTreeMap::new(alloc);
    'attributes: for index in 0..attributes.len() {
        if let Some((name, value)) = attributes.pair(index) {
            if is_signed(name, value) {
                ordered.insert(name, value)?;
            }
        }
    }
    Ok(ordered)
}

fn sign_attributes(hasher: &mut Sha256, attributes: &BTreeMap<&str, &str>)
    ensures { (m : List ℕ) → Holds256 hasher.old m → Holds256 hasher.new
        (m ++ flat_map signed_attribute (map deref_texts attributes.now.entries)) }
{
    'attributes: for (name, value) in attributes {
        sign_attribute(hasher, name, value);
    }
}

fn sign_start(hasher: &mut Sha256, name: &str, attributes: &BTreeMap<&str, &str>)
    ensures { (m : List ℕ) → Holds256 hasher.old m → Holds256 hasher.new
        (m ++ (1 ∷ sized name.now ++ flat_map signed_attribute (map deref_texts attributes.now.entries))) }
{
    hasher.update(&[1][..]);
    sign_text(hasher, name.as_bytes());
    sign_attributes(hasher, attributes);
}

fn sign_tag(alloc: Global, hasher: &mut Sha256, tag: &Tag) -> Result<(), NoMemory>
    ensures { OnOk result ((m : List ℕ) → Holds256 hasher.old m → Holds256 hasher.new (m ++ signed_tag tag.now)) }
{
    match tag {
        Tag::Start {
            name,
            attributes,
            ..
        } => {
            let attributes = by_name(alloc, attributes)?;
            sign_start(hasher, name.as_str(), &attributes);
        }
        Tag::End { .. } => hasher.update(&[2][..]),
        Tag::Finish => (),
    }
    Ok(())
}

fn sign_tags(alloc: Global, hasher: &mut Sha256, tags: &[Tag]) -> Result<(), NoMemory>
    ensures { OnOk result ((m : List ℕ) → Holds256 hasher.old m
        → Holds256 hasher.new (m ++ flat_map signed_tag tags.now)) }
{
    'tags: for tag in tags {
        sign_tag(alloc, hasher, tag)?;
    }
    Ok(())
}

/// The signature that these tags have under the key.
pub(crate) fn signature_of(
    alloc: Global,
    tags: &[Tag],
    key: &[u8; 16],
) -> Result<[u8; 16], NoMemory>
    ensures { IfOk result (λ signature. signature ≡ signature_of tags.now key.now) }
{
    let mut hasher = Sha256::new();
    sign_tags(alloc, &mut hasher, tags)?;
    sign_text(&mut hasher, &base64_of(key));
    Ok(block_from(&hasher.finalize()[..16]))
}
