//! What a keyring's elements say, gathered.

ghost use Rattle.std.specs.Prelude.{◌≡◌, List, ◌∷◌, [], ◌++◌, fold, flat_map, map, Ok, Some, None, IfOk, IfErr, OnOk};
ghost use Rattle.std.specs.Option.{option_map};
ghost use Rattle.std.specs.BTreeSet.{insert_key, keys};
ghost use Rattle.keyring_reader.specs.declared.said.Listing.{Listing};
ghost use Rattle.keyring_reader.specs.Contents.{Contents};
ghost use Rattle.keyring_reader.specs.Saying.{with_key, taken};
ghost use Rattle.keyring_reader.specs.Roles.{commands, roles_by, group_roles, device_role};
ghost use Rattle.keyring_reader.specs.Roles.{rows_of, by_group, by_device};
ghost use Rattle.keyring_reader.specs.Holding.{AreListed, Holds};
ghost use Rattle.keyring_reader.specs.Keyring.{IsFault};

use crate::KeyringFault;
use crate::said::{Listing, Said};
use key_tables::{Channel, Level, Role, Row};
use knx_base::{GroupAddr, IndAddr, NoMemory};
use std::alloc::Global;
use std::collections::{BTreeMap, BTreeSet};

/// The key rows in the order of the document, the groups and the devices that they are of, and the senders of each
/// group that an interface lists.
#[derive(Drop)]
pub(crate) struct Gathered {
    pub(crate) rows: Vec<Row>,
    pub(crate) groups: BTreeSet<GroupAddr>,
    pub(crate) devices: BTreeSet<IndAddr>,
    pub(crate) senders: BTreeMap<GroupAddr, BTreeSet<IndAddr>>,
}

impl Gathered {
    pub(crate) fn new(alloc: Global) -> Gathered
        ensures { Holds result (record { rows = []; listings = [] }) }
    {
        Gathered {
            rows: Vec::new(alloc),
            groups: BTreeSet::new(alloc),
            devices: BTreeSet::new(alloc),
            senders: BTreeMap::new(alloc),
        }
    }

    // Adds the key of a group that has none.
    fn add_group(
        &mut self,
        place: usize,
        group: GroupAddr,
        key: [u8; 16],
    ) -> Result<(), KeyringFault>
        ensures added { OnOk result ((c : Contents) → Holds self.old c
            → (n : Contents) × (with_key c place (Channel.Group group) (Row.Group group key Level.Auth) ≡ Ok n)
            × Holds self.new n) }
        ensures fault { IfErr result (λ fault. (c : Contents) → Holds self.old c
            → IsFault fault (with_key c place (Channel.Group group) (Row.Group group key Level.Auth))) }
    {
        if !self.groups.insert(group)? {
            return Err(KeyringFault::Twice(place));
        }
        self.rows.push(Row::Group {
            address: group,
            key,
            level: Level::Auth,
        })?;
        Ok(())
    }

    // Adds the tool key of a device that has none.
    fn add_device(
        &mut self,
        place: usize,
        device: IndAddr,
        key: [u8; 16],
    ) -> Result<(), KeyringFault>
        ensures added { OnOk result ((c : Contents) → Holds self.old c
            → (n : Contents) × (with_key c place (Channel.Tool device) (Row.Tool device key) ≡ Ok n)
            × Holds self.new n) }
        ensures fault { IfErr result (λ fault. (c : Contents) → Holds self.old c
            → IsFault fault (with_key c place (Channel.Tool device) (Row.Tool device key))) }
    {
        if !self.devices.insert(device)? {
            return Err(KeyringFault::Twice(place));
        }
        self.rows.push(Row::Tool { device, key })?;
        Ok(())
    }

    fn add_listing(&mut self, alloc: Global, listing: &Listing) -> Result<(), NoMemory>
        ensures { OnOk result ((c : Contents) → Holds self.old c
            → Holds self.new (record { rows = c.rows; listings = c.listings ++ listing.now ∷ [] })) }
    {
        insert_listing(alloc, &mut self.senders, listing)
    }

    /// Adds what the element at the place says.
    pub(crate) fn take(
        &mut self,
        alloc: Global,
        place: usize,
        said: Said,
    ) -> Result<(), KeyringFault>
        ensures taken { OnOk result ((c : Contents) → Holds self.old c → (n : Contents) × (taken c place said ≡ Ok n)
            × Holds self.new n) }
        ensures fault { IfErr result (λ fault. (c : Contents) → Holds self.old c → IsFault fault (taken c place said)) }
    {
        match said {
            Said::Nothing => Ok(()),
            Said::GroupKey(group, key) => self.add_group(place, group, key),
            Said::ToolKey(device, key) => self.add_device(place, device, key),
            Said::Lists(listing) => Ok(self.add_listing(alloc, &listing)?),
        }
    }
}

// Adds the devices to the set.
fn insert_all(set: &mut BTreeSet<IndAddr>, devices: &[IndAddr]) -> Result<(), NoMemory>
    ensures { OnOk result (set.new.keys ≡ fold (insert_key by_device) set.old.keys devices.now) }
{
    'devices: for device in devices {
        set.insert(*device)?;
    }
    Ok(())
}

// Adds the senders of one more listing to those of the group.
fn insert_listing(
    alloc: Global,
    senders: &mut BTreeMap<GroupAddr, BTreeSet<IndAddr>>,
    listing: &Listing,
) -> Result<(), NoMemory>
    ensures { OnOk result ((listings : List Listing) → AreListed senders.old listings
        → AreListed senders.new (listings ++ listing.now ∷ [])) }
{
    let mut set = match senders.remove(&listing.group) {
        Some(set) => set,
        None => BTreeSet::new(alloc),
    };
    insert_all(&mut set, listing.senders.as_slice())?;
    senders.insert(listing.group, set)?;
    Ok(())
}
