//! The elements of a keyring, read in turn.

ghost use Rattle.std.specs.Prelude.{◌≡◌, Ok, IfOk, IfErr, OnOk};
ghost use Rattle.keyring_reader.specs.Contents.{Contents, contents_of};
ghost use Rattle.keyring_reader.specs.Saying.{with_element};
ghost use Rattle.keyring_reader.specs.Holding.{Holds};
ghost use Rattle.keyring_reader.specs.Keyring.{IsFault};

use crate::KeyringFault;
use crate::gathered::Gathered;
use crate::keys::Wrapping;
use crate::kind::{Kind, Opened};
use crate::said::says;
use std::alloc::Global;
use tag_text::{Attributes, Tag};

// Adds what the element says.
fn take_element(
    gathered: &mut Gathered,
    alloc: Global,
    under: &Wrapping,
    kind: Kind,
    attributes: &Attributes,
    place: usize,
) -> Result<(), KeyringFault>
    ensures taken { OnOk result ((c : Contents) → Holds gathered.old c
        → (n : Contents) × (with_element under.now c (record {
          kind = kind;
          attributes = attributes.now;
          place = place;
        }) ≡ Ok n) × Holds gathered.new n) }
    ensures fault { IfErr result (λ fault. (c : Contents) → Holds gathered.old c
        → IsFault fault (with_element under.now c (record {
          kind = kind;
          attributes = attributes.now;
          place = place;
        }))) }
{
    let said = says(alloc, under, kind, attributes, place)?;
    gathered.take(alloc, place, said)
}

/// What the elements say, or the first that is refused.
pub(crate) fn read_contents(
    alloc: Global,
    under: &Wrapping,
    tags: &[Tag],
) -> Result<Gathered, KeyringFault>
    ensures contents { IfOk result (λ gathered. (c : Contents) × (contents_of under.now tags.now ≡ Ok c)
        × Holds gathered c) }
    ensures fault { IfErr result (λ fault. IsFault fault (contents_of under.now tags.now)) }
{
    let mut gathered = Gathered::new(alloc);
    let mut opened = Opened::new(alloc);
    'tags: for tag in tags {
        match tag {
            Tag::Start {
                name,
                attributes,
                place,
            } => {
                let kind = Kind::within(opened.innermost(), name.as_str(), attributes);
                take_element(&mut gathered, alloc, under, kind, attributes, *place)?;
                opened.open(kind)?;
            }
            Tag::End { .. } => opened.close(),
            Tag::Finish => (),
        }
    }
    Ok(gathered)
}
