//! What is asked of a keyring before its signature is.

ghost use Rattle.std.specs.Prelude.{◌≡◌, ◌&&◌, ◌||◌, Ok, Err, MatchResult, not};
ghost use Rattle.std.specs.List.{list_any, filter};
ghost use Rattle.std.specs.Str.{bytes_eq};
ghost use Rattle.keyring_reader.specs.Attributes.{required};
ghost use Rattle.keyring_reader.specs.Keyring.{root_named, root_of, stamps_in, stamps_of};
ghost use Rattle.keyring_reader.specs.Shown.{shown_root, shown_stamps};
ghost use Rattle.keyring_reader.specs.Signed.{is_signed, is_long, is_long_attribute};
ghost use Rattle.keyring_reader.specs.Signed.{is_long_start, long_at, first_long};

use crate::{Attribute, KeyringFault};
use tag_text::{Attributes, Tag};

/// The value of the attribute that an element at this place must have.
pub(crate) fn required(
    attributes: &Attributes,
    attribute: Attribute,
    place: usize,
) -> Result<&str, KeyringFault>
    ensures { MatchResult result (λ value. required attributes.now attribute place ≡ Ok value.now)
        (λ fault. required attributes.now attribute place ≡ Err fault) }
{
    match attributes.get(attribute.name()) {
        Some(value) => Ok(value),
        None => Err(KeyringFault::Missing(attribute, place)),
    }
}

/// An attribute of this name and value is signed.
pub(crate) fn is_signed(name: &str, value: &str) -> bool
    ensures { result ≡ is_signed (name.now, value.now) }
{
    name != "xmlns" && name != "Signature"
}

// A length that one octet does not tell.
fn is_long(text: &str) -> bool
    ensures { result ≡ is_long text.now }
{
    text.len() > 255
}

fn is_signed_and_long(name: &str, value: &str) -> bool
    ensures { result ≡ (is_signed (name.now, value.now) && is_long_attribute (name.now, value.now)) }
{
    is_signed(name, value) && (is_long(name) || is_long(value))
}

fn has_long(attributes: &Attributes) -> bool
    ensures { result ≡ list_any is_long_attribute (filter is_signed attributes.now) }
{
    'attributes: for index in 0..attributes.len() {
        if let Some((name, value)) = attributes.pair(index) {
            if is_signed_and_long(name, value) {
                return true;
            }
        }
    }
    false
}

fn long_at(tag: &Tag) -> Option<usize>
    ensures { result ≡ long_at tag.now }
{
    match tag {
        Tag::Start {
            name,
            attributes,
            place,
        } if is_long(name.as_str()) || has_long(attributes) => Some(*place),
        _ => None,
    }
}

// The place of the first element with a text that is too long to be signed.
fn first_long(tags: &[Tag]) -> Option<usize>
    ensures { result ≡ first_long tags.now }
{
    'tags: for tag in tags {
        if let Some(place) = long_at(tag) {
            return Some(place);
        }
    }
    None
}

// The attributes of the root element, and its place.
#[derive(Clone, Copy)]
struct Root<'a> {
    attributes: &'a Attributes,
    place: usize,
}

fn root_of(tags: &[Tag]) -> Result<Root, KeyringFault>
    ensures { MatchResult result (λ root. root_of tags.now ≡ Ok (shown_root root))
        (λ fault. root_of tags.now ≡ Err fault) }
{
    match tags.first() {
        Some(
            Tag::Start {
                name,
                attributes,
                place,
            },
        ) if name.as_str() == "Keyring" => Ok(Root {
            attributes,
            place: *place,
        }),
        _ => Err(KeyringFault::NotKeyring),
    }
}

/// When a keyring was made, and the text of its signature.
#[derive(Clone, Copy)]
pub(crate) struct Stamps<'a> {
    pub(crate) created: &'a str,
    pub(crate) signature: &'a str,
}

fn stamps_in(attributes: &Attributes, place: usize) -> Result<Stamps, KeyringFault>
    ensures { MatchResult result
        (λ stamps. stamps_in (record { attributes = attributes.now; place = place }) ≡ Ok (shown_stamps stamps))
        (λ fault. stamps_in (record { attributes = attributes.now; place = place }) ≡ Err fault) }
{
    let created = required(attributes, Attribute::Created, place)?;
    let signature = required(attributes, Attribute::Signature, place)?;
    Ok(Stamps { created, signature })
}

/// The stamps of a keyring that is in form.
pub(crate) fn stamps_of(tags: &[Tag]) -> Result<Stamps, KeyringFault>
    ensures { MatchResult result (λ stamps. stamps_of tags.now ≡ Ok (shown_stamps stamps))
        (λ fault. stamps_of tags.now ≡ Err fault) }
{
    let root = root_of(tags)?;
    match first_long(tags) {
        Some(place) => Err(KeyringFault::LongText(place)),
        None => stamps_in(root.attributes, root.place),
    }
}
