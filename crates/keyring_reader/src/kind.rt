ghost use Rattle.std.specs.Prelude.{◌≡◌, ◌∷◌, [], OnOk};
ghost use Rattle.std.specs.Option.{option_and_then};
ghost use Rattle.keyring_reader.specs.Kinds.{device_named, group_named, own_address};
ghost use Rattle.keyring_reader.specs.Elements.{outside};
ghost use Rattle.keyring_reader.specs.Walk.{root_kind, section_kind, where_named, kind_in, innermost};

use crate::Attribute;
use knx_base::{GroupAddr, IndAddr, NoMemory};
use std::alloc::Global;
use std::marker::Model;
use tag_text::Attributes;

/// What an element of a keyring is. Interfaces and the groups that they list come with the interface's own address.
#[derive(Clone, Copy)]
pub(crate) enum Kind {
    Keyring,
    Interface(Option<IndAddr>),
    Listing(Option<IndAddr>),
    GroupAddresses,
    GroupKey,
    Devices,
    Device,
    Other,
}

pub(crate) fn read_device(text: &str) -> Option<IndAddr>
    ensures { result ≡ device_named text.now }
{
    IndAddr::read(text)
}

/// A group other than 0.
pub(crate) fn read_group(text: &str) -> Option<GroupAddr>
    ensures { result ≡ group_named text.now }
{
    match GroupAddr::read(text) {
        Some(group) if group.0 != 0 => Some(group),
        _ => None,
    }
}

fn own_address(attributes: &Attributes) -> Option<IndAddr>
    ensures { result ≡ own_address attributes.now }
{
    read_device(attributes.get(Attribute::IndividualAddress.name())?)
}

fn root_kind(name: &str) -> Kind
    ensures { result ≡ root_kind name.now }
{
    if name == "Keyring" {
        Kind::Keyring
    } else {
        Kind::Other
    }
}

fn section_kind(name: &str, attributes: &Attributes) -> Kind
    ensures { result ≡ section_kind name.now attributes.now }
{
    if name == "Interface" {
        Kind::Interface(own_address(attributes))
    } else if name == "GroupAddresses" {
        Kind::GroupAddresses
    } else if name == "Devices" {
        Kind::Devices
    } else {
        Kind::Other
    }
}

fn where_named(name: &str, wanted: &str, found: Kind) -> Kind
    ensures { result ≡ where_named name.now wanted.now found }
{
    if name == wanted { found } else { Kind::Other }
}

impl Kind {
    /// The kind of an element that stands in one of the other kind, or that is the root.
    pub(crate) fn within(outer: Option<Kind>, name: &str, attributes: &Attributes) -> Kind
        ensures { result ≡ kind_in outer name.now attributes.now }
    {
        match outer {
            None => root_kind(name),
            Some(Kind::Keyring) => section_kind(name, attributes),
            Some(Kind::Interface(own)) => where_named(name, "Group", Kind::Listing(own)),
            Some(Kind::GroupAddresses) => where_named(name, "Group", Kind::GroupKey),
            Some(Kind::Devices) => where_named(name, "Device", Kind::Device),
            Some(_) => Kind::Other,
        }
    }
}

/// The kinds of the open elements. A contract sees them as a list, the innermost first.
#[derive(Drop)]
pub(crate) struct Opened {
    kinds: Vec<Kind>,
}

impl Model for Opened {
    ghost use Rattle.std.specs.Prelude.{List, reverse};
    ghost use Rattle.keyring_reader.specs.declared.kind.Kind.{Kind};

    ghost Value = { List Kind };

    ghost view = { λ opened. reverse opened.kinds.items };
}

impl Opened {
    pub(crate) fn new(alloc: Global) -> Opened
        ensures { result ≡ [] }
    {
        Opened {
            kinds: Vec::new(alloc),
        }
    }

    pub(crate) fn innermost(&self) -> Option<Kind>
        ensures { result ≡ innermost self.now }
    {
        self.kinds.last().copied()
    }

    pub(crate) fn open(&mut self, kind: Kind) -> Result<(), NoMemory>
        ensures { OnOk result (self.new ≡ kind ∷ self.old) }
    {
        self.kinds.push(kind)?;
        Ok(())
    }

    pub(crate) fn close(&mut self)
        ensures { self.new ≡ outside self.old }
    {
        self.kinds.pop();
    }
}
