ghost use Rattle.std.specs.Prelude.{◌≡◌, length, Some, None};
ghost use Rattle.std.specs.Map.{lookup};
ghost use Rattle.std.specs.Option.{option_or};
ghost use Rattle.key_tables.specs.Index.{same_key, AddsSteps};
ghost use Rattle.key_tables.specs.Rows.{device_role};
ghost use Rattle.key_tables.specs.Seen.{key_in, level_in, named_in, role_in};

use crate::search::{find, search};
use crate::{Channel, Level, Role, RowIndex, RowKey, RowValue, Steps};
use knx_base::IndAddr;
use std::marker::Brand;
use std::sync::ledger::{Blank, Ledger};

// What stands in the row that is found by the key.
fn value_counted<L: Ledger>(
    index: &RowIndex,
    wanted: &RowKey,
    steps: &mut Steps<L>,
) -> Option<RowValue>
    ensures value { result ≡ lookup (same_key wanted.now) index.now }
    ensures steps { AddsSteps 1 (length index.now) steps.old steps.new }
{
    let place = search(index, wanted, steps)?;
    Some(index.value_at(place))
}

// The same, where nobody counts.
fn value_of(index: &RowIndex, wanted: &RowKey) -> Option<RowValue>
    ensures { result ≡ lookup (same_key wanted.now) index.now }
{
    let place = find(index, wanted)?;
    Some(index.value_at(place))
}

pub(crate) fn key_in(keys: &RowIndex, channel: Channel) -> Option<[u8; 16]>
    ensures { result ≡ key_in keys.now channel }
{
    value_of(keys, &RowKey::Key(channel))?.key()
}

pub(crate) fn key_counted<L: Ledger>(
    keys: &RowIndex,
    channel: Channel,
    steps: &mut Steps<L>,
) -> Option<[u8; 16]>
    ensures key { result ≡ key_in keys.now channel }
    ensures steps { AddsSteps 1 (length keys.now) steps.old steps.new }
{
    value_counted(keys, &RowKey::Key(channel), steps)?.key()
}

pub(crate) fn level_in(keys: &RowIndex, channel: Channel) -> Option<Level>
    ensures { result ≡ level_in keys.now channel }
{
    value_of(keys, &RowKey::Key(channel))?.level()
}

// The role of a sender on a channel: its own row's, else that of the row for any sender, else the device's own.
pub(crate) fn role_counted<L: Ledger>(
    roles: &RowIndex,
    channel: Channel,
    sender: IndAddr,
    steps: &mut Steps<L>,
) -> Option<Role>
    ensures role { result ≡ role_in roles.now channel sender }
    ensures steps { AddsSteps 2 (length roles.now) steps.old steps.new }
{
    match named_role(roles, channel, Some(sender), steps) {
        Some(role) => Some(role),
        None => common_role(roles, channel, sender, steps),
    }
}

// The role of a sender that has no row of its own.
fn common_role<L: Ledger>(
    roles: &RowIndex,
    channel: Channel,
    sender: IndAddr,
    steps: &mut Steps<L>,
) -> Option<Role>
    ensures role { result ≡ option_or (named_in roles.now channel None) (device_role channel sender) }
    ensures steps { AddsSteps 1 (length roles.now) steps.old steps.new }
{
    match named_role(roles, channel, None, steps) {
        Some(role) => Some(role),
        None => own_role(channel, sender),
    }
}

fn named_role<L: Ledger>(
    roles: &RowIndex,
    channel: Channel,
    sender: Option<IndAddr>,
    steps: &mut Steps<L>,
) -> Option<Role>
    ensures role { result ≡ named_in roles.now channel sender }
    ensures steps { AddsSteps 1 (length roles.now) steps.old steps.new }
{
    value_counted(roles, &RowKey::Role(channel, sender), steps)?.role()
}

fn own_role(channel: Channel, sender: IndAddr) -> Option<Role>
    ensures { result ≡ device_role channel sender }
{
    match channel {
        Channel::Tool(device) if device == sender => Some(Role::Observe),
        _ => None,
    }
}

// The role of a sender on a channel, where nobody counts.
pub(crate) fn role_in(roles: &RowIndex, channel: Channel, sender: IndAddr) -> Option<Role>
    ensures { result ≡ role_in roles.now channel sender }
{
    role_from::<Brand>(roles, channel, sender, Blank::new(1))
}

fn role_from<L: Ledger>(
    roles: &RowIndex,
    channel: Channel,
    sender: IndAddr,
    blank: Blank,
) -> Option<Role>
    requires name { blank.name ≡ L.name }
    requires parts { blank.parts ≡ L.parts }
    requires one { blank.parts ≡ 1 }
    ensures { result ≡ role_in roles.now channel sender }
{
    role_counted(roles, channel, sender, &mut Steps::<L>::new(blank))
}
