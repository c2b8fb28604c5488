//! What the elements of a keyring say.

ghost use Rattle.std.specs.Prelude.{◌≡◌, List, ◌∷◌, [], ◌++◌, Ok, IfOk, IfErr, OnOk};
ghost use Rattle.std.specs.Option.{option_to_list};
ghost use Rattle.knx_base.specs.declared.address.IndAddr.{IndAddr};
ghost use Rattle.keyring_reader.specs.Saying.{device_at, group_at, key_at, devices_at, senders_at, interface_says};
ghost use Rattle.keyring_reader.specs.Saying.{listing_says, group_says, tool_says, device_says, says};
ghost use Rattle.keyring_reader.specs.Elements.{words_of};
ghost use Rattle.keyring_reader.specs.Keyring.{IsFault};

use crate::form::required;
use crate::keys::Wrapping;
use crate::kind::{Kind, read_device, read_group};
use crate::{Attribute, KeyringFault};
use knx_base::{GroupAddr, IndAddr, NoMemory};
use std::alloc::Global;
use std::marker::Model;
use tag_text::Attributes;

/// Addresses of senders. A contract sees them as their list.
#[derive(Drop)]
pub(crate) struct Senders {
    list: Vec<IndAddr>,
}

impl Model for Senders {
    ghost use Rattle.std.specs.Prelude.{List};
    ghost use Rattle.knx_base.specs.declared.address.IndAddr.{IndAddr};

    ghost Value = { List IndAddr };

    ghost view = { λ senders. senders.list.items };
}

impl Senders {
    fn new(alloc: Global) -> Senders
        ensures { result ≡ [] }
    {
        Senders {
            list: Vec::new(alloc),
        }
    }

    fn push(&mut self, device: IndAddr) -> Result<(), NoMemory>
        ensures { OnOk result (self.new ≡ self.old ++ device ∷ []) }
    {
        self.list.push(device)?;
        Ok(())
    }

    pub(crate) fn as_slice(&self) -> &[IndAddr]
        ensures { result.now ≡ self.now }
    {
        &self.list
    }
}

/// An interface lists a group, to which these may send: the senders that it names, and its own address where it has
/// one.
#[derive(Drop)]
pub(crate) struct Listing {
    pub(crate) group: GroupAddr,
    pub(crate) senders: Senders,
}

/// What an element says.
#[derive(Drop)]
pub(crate) enum Said {
    Nothing,
    /// The key of a group.
    GroupKey(GroupAddr, [u8; 16]),
    /// The tool key of a device.
    ToolKey(IndAddr, [u8; 16]),
    Lists(Listing),
}

fn device_at(place: usize, text: &str) -> Result<IndAddr, KeyringFault>
    ensures { result ≡ device_at place text.now }
{
    read_device(text).ok_or(KeyringFault::Address(place))
}

fn group_at(place: usize, text: &str) -> Result<GroupAddr, KeyringFault>
    ensures { result ≡ group_at place text.now }
{
    read_group(text).ok_or(KeyringFault::Address(place))
}

fn key_at(under: &Wrapping, place: usize, text: &str) -> Result<[u8; 16], KeyringFault>
    ensures { result ≡ key_at under.now place text.now }
{
    under.read_key(text).ok_or(KeyringFault::Key(place))
}

// Appends the addresses that the words of the text are.
fn push_devices(senders: &mut Senders, place: usize, text: &str) -> Result<(), KeyringFault>
    ensures pushed { OnOk result ((devices : List IndAddr) × (devices_at place (words_of text.now) ≡ Ok devices)
        × (senders.new ≡ senders.old ++ devices)) }
    ensures fault { IfErr result (λ fault. IsFault fault (devices_at place (words_of text.now))) }
{
    'words: for word in text.split(' ') {
        if !word.is_empty() {
            senders.push(device_at(place, word)?)?;
        }
    }
    Ok(())
}

fn senders_at(
    alloc: Global,
    own: Option<IndAddr>,
    place: usize,
    text: &str,
) -> Result<Senders, KeyringFault>
    ensures senders { IfOk result (λ senders. senders_at own place text.now ≡ Ok senders) }
    ensures fault { IfErr result (λ fault. IsFault fault (senders_at own place text.now)) }
{
    let mut senders = Senders::new(alloc);
    if let Some(own) = own {
        senders.push(own)?;
    }
    push_devices(&mut senders, place, text)?;
    Ok(senders)
}

fn interface_says(attributes: &Attributes, place: usize) -> Result<Said, KeyringFault>
    ensures { result ≡ interface_says attributes.now place }
{
    match attributes.get(Attribute::IndividualAddress.name()) {
        Some(text) => {
            device_at(place, text)?;
            Ok(Said::Nothing)
        }
        None => Ok(Said::Nothing),
    }
}

fn listing_says(
    alloc: Global,
    own: Option<IndAddr>,
    attributes: &Attributes,
    place: usize,
) -> Result<Said, KeyringFault>
    ensures said { IfOk result (λ said. listing_says own attributes.now place ≡ Ok said) }
    ensures fault { IfErr result (λ fault. IsFault fault (listing_says own attributes.now place)) }
{
    let address = required(attributes, Attribute::Address, place)?;
    let group = group_at(place, address)?;
    let senders = senders_at(alloc, own, place, attributes.get("Senders").unwrap_or(""))?;
    Ok(Said::Lists(Listing { group, senders }))
}

fn group_says(under: &Wrapping, attributes: &Attributes, place: usize) -> Result<Said, KeyringFault>
    ensures { result ≡ group_says under.now attributes.now place }
{
    let address = required(attributes, Attribute::Address, place)?;
    let text = required(attributes, Attribute::Key, place)?;
    Ok(Said::GroupKey(group_at(place, address)?, key_at(under, place, text)?))
}

fn tool_says(
    under: &Wrapping,
    attributes: &Attributes,
    place: usize,
    text: &str,
) -> Result<Said, KeyringFault>
    ensures { result ≡ tool_says under.now attributes.now place text.now }
{
    let address = required(attributes, Attribute::IndividualAddress, place)?;
    Ok(Said::ToolKey(device_at(place, address)?, key_at(under, place, text)?))
}

fn device_says(
    under: &Wrapping,
    attributes: &Attributes,
    place: usize,
) -> Result<Said, KeyringFault>
    ensures { result ≡ device_says under.now attributes.now place }
{
    match attributes.get("ToolKey") {
        Some(text) => tool_says(under, attributes, place, text),
        None => Ok(Said::Nothing),
    }
}

/// What an element of this kind says, with these attributes at this place.
#[tactic(auto, unfolding(crate::specs::Saying::says))]
pub(crate) fn says(
    alloc: Global,
    under: &Wrapping,
    kind: Kind,
    attributes: &Attributes,
    place: usize,
) -> Result<Said, KeyringFault>
    ensures said { IfOk result (λ said. says under.now kind attributes.now place ≡ Ok said) }
    ensures fault { IfErr result (λ fault. IsFault fault (says under.now kind attributes.now place)) }
{
    match kind {
        Kind::Interface(_) => interface_says(attributes, place),
        Kind::Listing(own) => listing_says(alloc, own, attributes, place),
        Kind::GroupKey => group_says(under, attributes, place),
        Kind::Device => device_says(under, attributes, place),
        _ => Ok(Said::Nothing),
    }
}
