//! The rows that a keyring gives.

ghost use Rattle.std.specs.Prelude.{◌≡◌, List, ◌∷◌, [], ◌++◌, flat_map, map, IfOk, OnOk};
ghost use Rattle.std.specs.Option.{option_map};
ghost use Rattle.keyring_reader.specs.declared.said.Listing.{Listing};
ghost use Rattle.keyring_reader.specs.Contents.{Contents};
ghost use Rattle.keyring_reader.specs.Roles.{commands, roles_by, group_roles, device_role, rows_of};
ghost use Rattle.keyring_reader.specs.Holding.{AreListed, Holds};

use crate::gathered::Gathered;
use key_tables::{Channel, Role, Row};
use knx_base::{GroupAddr, IndAddr, NoMemory};
use std::collections::{BTreeMap, BTreeSet};

// The sender, or any, commands the group.
fn command(group: GroupAddr, sender: Option<IndAddr>) -> Row
    ensures { result ≡ Row.Role (Channel.Group group) sender Role.Command }
{
    Row::Role {
        channel: Channel::Group(group),
        sender,
        role: Role::Command,
    }
}

// Each of the senders commands the group.
fn push_commands(
    rows: &mut Vec<Row>,
    group: GroupAddr,
    senders: &BTreeSet<IndAddr>,
) -> Result<(), NoMemory>
    ensures { OnOk result (rows.new.items ≡ rows.old.items ++ map (commands group) senders.now.keys) }
{
    'senders: for sender in senders {
        rows.push(command(group, Some(*sender)))?;
    }
    Ok(())
}

fn push_groups(
    rows: &mut Vec<Row>,
    groups: &BTreeSet<GroupAddr>,
    senders: &BTreeMap<GroupAddr, BTreeSet<IndAddr>>,
) -> Result<(), NoMemory>
    ensures { OnOk result ((listings : List Listing) → AreListed senders.now listings
        → rows.new.items ≡ rows.old.items ++ flat_map (group_roles listings) groups.now.keys) }
{
    'groups: for group in groups {
        match senders.get(group) {
            Some(senders) => push_commands(rows, *group, senders)?,
            None => rows.push(command(*group, None))?,
        }
    }
    Ok(())
}

// Any sender manages each of the devices.
fn push_devices(rows: &mut Vec<Row>, devices: &BTreeSet<IndAddr>) -> Result<(), NoMemory>
    ensures { OnOk result (rows.new.items ≡ rows.old.items ++ map device_role devices.now.keys) }
{
    'devices: for device in devices {
        rows.push(Row::Role {
            channel: Channel::Tool(*device),
            sender: None,
            role: Role::Manage,
        })?;
    }
    Ok(())
}

/// The key rows, and then the role rows.
#[tactic(auto, unfolding(crate::specs::Roles::rows_of))]
pub(crate) fn rows_of(gathered: Gathered) -> Result<Vec<Row>, NoMemory>
    ensures { IfOk result (λ rows. (c : Contents) → Holds gathered c → rows.items ≡ rows_of c) }
{
    let Gathered {
        mut rows,
        groups,
        devices,
        senders,
    } = gathered;
    push_groups(&mut rows, &groups, &senders)?;
    push_devices(&mut rows, &devices)?;
    Ok(rows)
}
