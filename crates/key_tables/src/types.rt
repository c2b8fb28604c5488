ghost use Rattle.std.specs.Prelude.{◌≡◌};
ghost use Rattle.key_tables.specs.Index.{row_key_of, subject_of, key_entry, role_entry, value_key, value_level, value_role};
ghost use Rattle.key_tables.specs.Rows.{same_channel, key_channel, is_channel, is_key_row, lane_of, role_rank, is_enough};

use knx_base::{GroupAddr, IndAddr};
use std::fmt;

/// What telegrams are sealed for: a group, under the group's key, or a device, under its tool key.
#[derive(Clone, Copy, Debug, PartialEq, Eq, PartialOrd, Ord)]
pub enum Channel {
    Group(GroupAddr),
    Tool(IndAddr),
}

/// Where a receiver keeps the greatest number that it took: one place for each sender to groups, and one for each
/// device and each sender on that device's channel.
#[derive(Clone, Copy, Debug, PartialEq, Eq, PartialOrd, Ord)]
pub enum Lane {
    /// Of this sender, whatever the group.
    Run(IndAddr),
    /// Of a device's channel, first the device, and a sender.
    Tool(IndAddr, IndAddr),
}

/// How much of a telegram a group wants sealed.
#[derive(Clone, Copy, Debug, PartialEq, Eq)]
pub enum Level {
    /// A code is enough; the telegram may be readable.
    Auth,
    /// The telegram must be encrypted too.
    Conf,
}

/// What a sender may do on a channel, each role more than the one before.
#[derive(Clone, Copy, Debug, PartialEq, Eq, PartialOrd, Ord)]
pub enum Role {
    Observe,
    Command,
    Manage,
}

/// One fact of an installation. Its key rows are the rows of groups and of tools. `Debug` shows no key.
#[derive(Clone, Copy, PartialEq, Eq)]
pub enum Row {
    /// A group has this key, and wants telegrams of this level.
    Group {
        address: GroupAddr,
        key: [u8; 16],
        level: Level,
    },
    /// A device has this tool key.
    Tool {
        device: IndAddr,
        key: [u8; 16],
    },
    /// A sender, or any sender where none is named, has this role on a channel.
    Role {
        channel: Channel,
        sender: Option<IndAddr>,
        role: Role,
    },
}

/// What a row is found by. Key rows come before role rows, and groups before devices; on a channel the row of any
/// sender comes first.
#[derive(Clone, Copy, Debug, PartialEq, Eq, PartialOrd, Ord)]
pub enum RowKey {
    /// The channel whose key it holds.
    Key(Channel),
    /// The channel, and the sender whose role on it it gives, or none for any sender.
    Role(Channel, Option<IndAddr>),
}

/// What stands in a row beside what it is found by.
#[derive(Clone, Copy, PartialEq, Eq)]
pub enum RowValue {
    /// A key, and of a group the level.
    Key([u8; 16], Option<Level>),
    Role(Role),
}

impl Channel {
    /// The lane of a sender on this channel.
    pub fn lane(self, sender: IndAddr) -> Lane
        ensures { result ≡ lane_of self sender }
    {
        match self {
            Channel::Group(_) => Lane::Run(sender),
            Channel::Tool(device) => Lane::Tool(device, sender),
        }
    }
}

impl Role {
    /// Whether a sender with this role may do what needs the other.
    pub fn is_enough_for(self, needed: Role) -> bool
        ensures { result ≡ is_enough self needed }
    {
        self.rank() >= needed.rank()
    }

    fn rank(self) -> u8
        ensures { result ≡ role_rank self }
    {
        match self {
            Role::Observe => 0,
            Role::Command => 1,
            Role::Manage => 2,
        }
    }
}

impl fmt::Debug for Row {
    fn fmt<W: fmt::Write>(&self, f: &mut fmt::Formatter<W>) -> fmt::Result {
        match self {
            Row::Group { address, level, .. } => f
                .debug_struct("Group")
                .field("address", address)
                .field("level", level)
                .finish_non_exhaustive(),
            Row::Tool { device, .. } => f
                .debug_struct("Tool")
                .field("device", device)
                .finish_non_exhaustive(),
            Row::Role {
                channel,
                sender,
                role,
            } => f
                .debug_struct("Role")
                .field("channel", channel)
                .field("sender", sender)
                .field("role", role)
                .finish(),
        }
    }
}

impl Row {
    // The channel whose key stands in the row.
    fn key_channel(&self) -> Option<Channel>
        ensures { result ≡ key_channel self.now }
    {
        match self {
            Row::Group { address, .. } => Some(Channel::Group(*address)),
            Row::Tool { device, .. } => Some(Channel::Tool(*device)),
            Row::Role { .. } => None,
        }
    }

    // The row holds the key of the channel.
    pub(crate) fn is_key_of(&self, channel: Channel) -> bool
        ensures { result ≡ is_key_row channel self.now }
    {
        self.key_channel() == Some(channel)
    }

    // What the row is found by.
    pub(crate) fn row_key(&self) -> RowKey
        ensures { result ≡ row_key_of self.now }
    {
        match self {
            Row::Group { address, .. } => RowKey::Key(Channel::Group(*address)),
            Row::Tool { device, .. } => RowKey::Key(Channel::Tool(*device)),
            Row::Role {
                channel,
                sender,
                ..
            } => RowKey::Role(*channel, *sender),
        }
    }

    // What the row says something of: the key of a channel, or the roles on it.
    pub(crate) fn subject(&self) -> RowKey
        ensures { result ≡ subject_of self.now }
    {
        match self {
            Row::Group { address, .. } => RowKey::Key(Channel::Group(*address)),
            Row::Tool { device, .. } => RowKey::Key(Channel::Tool(*device)),
            Row::Role { channel, .. } => RowKey::Role(*channel, None),
        }
    }

    // The row with what it is found by, where it holds a key.
    pub(crate) fn key_entry(&self) -> Option<(RowKey, RowValue)>
        ensures { result ≡ key_entry self.now }
    {
        match self {
            Row::Group {
                address,
                key,
                level,
            } => Some((
                RowKey::Key(Channel::Group(*address)),
                RowValue::Key(*key, Some(*level)),
            )),
            Row::Tool { device, key } => Some((
                RowKey::Key(Channel::Tool(*device)),
                RowValue::Key(*key, None),
            )),
            Row::Role { .. } => None,
        }
    }

    // The same, where it gives a role.
    pub(crate) fn role_entry(&self) -> Option<(RowKey, RowValue)>
        ensures { result ≡ role_entry self.now }
    {
        match self {
            Row::Role {
                channel,
                sender,
                role,
            } => Some((RowKey::Role(*channel, *sender), RowValue::Role(*role))),
            _ => None,
        }
    }
}

impl RowValue {
    pub(crate) fn key(&self) -> Option<[u8; 16]>
        ensures { result ≡ value_key self.now }
    {
        match self {
            RowValue::Key(key, _) => Some(*key),
            RowValue::Role(_) => None,
        }
    }

    // A device's channel is confidential.
    pub(crate) fn level(&self) -> Option<Level>
        ensures { result ≡ value_level self.now }
    {
        match self {
            RowValue::Key(_, level) => Some(level.unwrap_or(Level::Conf)),
            RowValue::Role(_) => None,
        }
    }

    pub(crate) fn role(&self) -> Option<Role>
        ensures { result ≡ value_role self.now }
    {
        match self {
            RowValue::Role(role) => Some(*role),
            RowValue::Key(..) => None,
        }
    }
}
