ghost use Rattle.std.specs.Prelude.{◌≡◌, ◌<◌, ◌-◌, ◌^◌, [], not, false, IfOk, OnOk, OnErr};
ghost use Rattle.key_tables.specs.Seen.{channel_number, mark_of, holds, Gains, Loses};

use crate::{Channel, RowKey};
use std::alloc::{AllocError, Global};
use std::collections::BTreeSet;
use std::marker::Model;

// A key in two numbers, which are compared in fewer steps than keys are. Their order says nothing.
#[derive(Clone, Copy, PartialEq, Eq, PartialOrd, Ord)]
pub(crate) struct Mark {
    // Four times the address, and the kind of the row and of its channel.
    channel: u32,
    // One more than the address, or 0 where no sender is named.
    sender: u32,
}

impl Mark {
    fn of(key: &RowKey) -> Mark
        ensures { result ≡ mark_of key.now }
    {
        match key {
            RowKey::Key(channel) => Mark {
                channel: numbered(channel),
                sender: 0,
            },
            RowKey::Role(channel, sender) => Mark {
                channel: numbered(channel) + 2,
                sender: match sender {
                    Some(sender) => u32::from(sender.0) + 1,
                    None => 0,
                },
            },
        }
    }
}

// The keys of rows, or what the rows say something of.
#[derive(Drop)]
pub(crate) struct KeySet {
    tree: BTreeSet<Mark>,
}

impl Model for KeySet {
    ghost use Rattle.std.specs.Prelude.{List};
    ghost use Rattle.key_tables.specs.declared.key_set.Mark.{Mark};

    ghost Value = { List Mark };

    ghost view = { λ set. set.tree.keys };
}

impl KeySet {
    pub(crate) fn new(alloc: Global) -> KeySet
        ensures { result ≡ [] }
    {
        KeySet {
            tree: BTreeSet::new(alloc),
        }
    }

    pub(crate) fn contains(&self, key: &RowKey) -> bool
        ensures { result ≡ holds self.now key.now }
    {
        self.tree.contains(&Mark::of(key))
    }

    // Whether the key is new.
    pub(crate) fn insert(&mut self, key: RowKey) -> Result<bool, AllocError>
        ensures added { IfOk result (λ added. added ≡ not (holds self.old key)) }
        ensures gains { OnOk result (Gains key self.old self.new) }
        ensures kept { IfOk result (λ added. added ≡ false → self.new ≡ self.old) }
        ensures absent { OnErr result (holds self.old key ≡ false) }
        ensures unchanged { OnErr result (self.new ≡ self.old) }
    {
        Ok(self.tree.insert(Mark::of(&key))?)
    }

    pub(crate) fn remove(&mut self, key: &RowKey)
        ensures { Loses key.now self.old self.new }
    {
        self.tree.remove(&Mark::of(key));
    }
}

fn numbered(channel: &Channel) -> u32
    ensures number { result ≡ channel_number channel.now }
    ensures room { result < 2 ^ 18 - 2 }
{
    match channel {
        Channel::Group(address) => u32::from(address.0) * 4,
        Channel::Tool(device) => u32::from(device.0) * 4 + 1,
    }
}
