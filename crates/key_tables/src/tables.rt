ghost use Rattle.std.specs.Prelude.{◌≡◌, ◌≢◌, ℕ, ◌||◌, length, slice_get, true, false, None, Some, is_some, IfSome, IfOk, IfErr, IsOk};
ghost use Rattle.std.specs.List.{filter};
ghost use Rattle.std.specs.Option.{option_map, option_or};
ghost use Rattle.key_tables.specs.Build.{build_fault, is_key, is_role, merged, AreFew, IsFault, NoneTwice, LookUpsMerge};
ghost use Rattle.key_tables.specs.Index.{AddsSteps};
ghost use Rattle.key_tables.specs.Rows.{is_key_row, is_role_row, row_key, row_level, row_role, is_own, has_key, has_role, EachSays, key_of, level_of, role_of, channel_of, keyed};

use crate::look_ups::{key_counted, key_in, level_in, role_counted, role_in};
use crate::search::find;
use crate::{BuildFault, Channel, Level, Role, Row, RowIndex, RowKey, RowList, Steps};
use aes_modes::Key128;
use knx_base::{GroupAddr, IndAddr};
use std::alloc::{AllocError, Global};
use std::marker::Model;
use std::sync::ledger::Ledger;

/// The rows of an installation. No channel has two keys, and no sender two roles on one channel.
///
/// A contract sees them as their list. A look-up asks the indexes, in which each row is found in few steps.
#[derive(Drop)]
pub struct Tables {
    rows: Vec<Row>,
    keys: RowIndex,
    roles: RowIndex,
    // The keys, expanded, at their places in the index.
    expanded: Vec<Key128>,
}

impl Model for Tables {
    ghost use Rattle.std.specs.Prelude.{List};
    ghost use Rattle.key_tables.specs.declared.types.Row.{Row};
    ghost use Rattle.key_tables.specs.Index.{AreIndexed};

    ghost Value = { List Row };

    ghost view = { λ tables. tables.rows.items };

    ghost invariant = { λ tables. AreIndexed tables.rows.items tables.keys tables.roles tables.expanded.items };
}

impl Tables {
    /// Rows of which each was found to stand, as tables.
    pub fn from_rows(alloc: Global, rows: RowList) -> Result<Tables, AllocError>
        ensures rows { IfOk result (λ tables. tables ≡ rows) }
        ensures once { IfOk result (λ tables. NoneTwice tables) }
        ensures few { IfOk result (λ tables. AreFew tables) }
    {
        let keys = RowIndex::of_keys(alloc, &rows)?;
        let roles = RowIndex::of_roles(alloc, &rows)?;
        let expanded = keys.expanded(alloc)?;
        Ok(Tables {
            rows: rows.into_rows(),
            keys,
            roles,
            expanded,
        })
    }

    /// The rows as tables, unless one may not stand after those before it: then the fault is that of the first such
    /// row.
    #[tactic(auto, unfolding(crate::specs::Build::build_fault))]
    pub fn build(alloc: Global, rows: &[Row]) -> Result<Tables, BuildFault>
        ensures rows { IfOk result (λ tables. tables ≡ rows.now) }
        ensures stand { IsOk result → build_fault rows.now ≡ None }
        ensures once { IfOk result (λ tables. NoneTwice tables) }
        ensures few { IfOk result (λ tables. AreFew tables) }
        ensures fault { IfErr result (λ fault. IsFault fault (build_fault rows.now)) }
    {
        let mut list = RowList::new(alloc);
        list.add_all(rows)?;
        Ok(Tables::from_rows(alloc, list)?)
    }

    /// The rows of `over`, and after them those key rows of `under` whose channel has no key in `over`, and those role
    /// rows whose channel has no role in `over`, in their order. The place in a fault is counted in that list. Where no
    /// row of either list says again what another of it says, a fault is never `Twice`.
    pub fn merge(alloc: Global, over: &[Row], under: &[Row]) -> Result<Tables, BuildFault>
        ensures rows { IfOk result (λ tables. tables ≡ merged over.now under.now) }
        ensures stand { IsOk result → build_fault (merged over.now under.now) ≡ None }
        ensures once { IfOk result (λ tables. NoneTwice tables) }
        ensures few { IfOk result (λ tables. AreFew tables) }
        ensures fault { IfErr result (λ fault. IsFault fault (build_fault (merged over.now under.now))) }
        ensures never_twice { NoneTwice over.now → NoneTwice under.now
            → IfErr result (λ fault. (row : ℕ) → fault ≢ BuildFault.Twice row) }
        ensures look_ups { LookUpsMerge over.now under.now }
    {
        let list = RowList::merged(alloc, over, under)?;
        Ok(Tables::from_rows(alloc, list)?)
    }

    /// The key of a channel.
    pub fn key(&self, channel: Channel) -> Option<[u8; 16]>
        ensures key { result ≡ key_of self.now channel }
        ensures there { is_some result ≡ has_key self.now channel }
        ensures each { EachSays self.now (is_key_row channel) row_key result }
    {
        key_in(&self.keys, channel)
    }

    /// The key of a channel, found in so few steps.
    pub fn key_counted<L: Ledger>(&self, channel: Channel, steps: &mut Steps<L>) -> Option<[u8; 16]>
        ensures key { result ≡ key_of self.now channel }
        ensures steps { AddsSteps 1 (length (filter is_key self.now)) steps.old steps.new }
    {
        key_counted(&self.keys, channel, steps)
    }

    /// The key of a channel, with its round keys.
    pub fn expanded_key(&self, channel: Channel) -> Option<&Key128>
        ensures key { option_map (λ key. key.now) result ≡ key_of self.now channel }
    {
        let place = find(&self.keys, &RowKey::Key(channel))?;
        expanded_in(&self.expanded, place)
    }

    /// The level of a channel that has a key.
    pub fn level(&self, channel: Channel) -> Option<Level>
        ensures level { result ≡ level_of self.now channel }
        ensures there { is_some result ≡ has_key self.now channel }
        ensures each { EachSays self.now (is_key_row channel) row_level result }
    {
        level_in(&self.keys, channel)
    }

    /// The role of a sender on a channel: its own row's, else that of the row for any sender, else Observe for the
    /// device whose channel it is.
    pub fn role(&self, channel: Channel, sender: IndAddr) -> Option<Role>
        ensures role { result ≡ role_of self.now channel sender }
        ensures there { is_some result ≡ (has_role self.now channel (Some sender) || has_role self.now channel None
            || is_own channel sender) }
        ensures own { EachSays self.now (is_role_row channel (Some sender)) row_role result }
        ensures any { has_role self.now channel (Some sender) ≡ false
            → EachSays self.now (is_role_row channel None) row_role result }
        ensures device { has_role self.now channel (Some sender) ≡ false → has_role self.now channel None ≡ false
            → is_own channel sender ≡ true
            → result ≡ Some Role.Observe }
    {
        role_in(&self.roles, channel, sender)
    }

    /// The role of a sender on a channel, found in so few steps.
    pub fn role_counted<L: Ledger>(
        &self,
        channel: Channel,
        sender: IndAddr,
        steps: &mut Steps<L>,
    ) -> Option<Role>
        ensures role { result ≡ role_of self.now channel sender }
        ensures steps { AddsSteps 2 (length (filter is_role self.now)) steps.old steps.new }
    {
        role_counted(&self.roles, channel, sender, steps)
    }

    /// The channel of a frame. Without tool access it is the destination, where that is a group with a key. With tool
    /// access it is the destination, where that is a device with a tool key, or else the source device, where that has
    /// one.
    #[tactic(auto, unfolding(crate::specs::Rows::channel_of))]
    pub fn channel_of(
        &self,
        group: bool,
        tool: bool,
        source: IndAddr,
        destination: u16,
    ) -> Option<Channel>
        ensures channel { result ≡ channel_of self.now group tool source destination }
        ensures keyed { IfSome result (λ channel. has_key self.now channel ≡ true) }
    {
        match (group, tool) {
            (true, false) => self.keyed(Channel::Group(GroupAddr(destination))),
            (false, true) => self.tool_channel(source, IndAddr(destination)),
            _ => None,
        }
    }

    fn tool_channel(&self, source: IndAddr, destination: IndAddr) -> Option<Channel>
        ensures channel { result ≡ option_or (keyed self.now (Channel.Tool destination))
            (keyed self.now (Channel.Tool source)) }
        ensures keyed { IfSome result (λ channel. has_key self.now channel ≡ true) }
    {
        match self.keyed(Channel::Tool(destination)) {
            Some(channel) => Some(channel),
            None => self.keyed(Channel::Tool(source)),
        }
    }

    fn keyed(&self, channel: Channel) -> Option<Channel>
        ensures channel { result ≡ keyed self.now channel }
        ensures keyed { IfSome result (λ channel. has_key self.now channel ≡ true) }
    {
        self.key(channel).and(Some(channel))
    }
}

fn expanded_in(keys: &[Key128], place: usize) -> Option<&Key128>
    ensures { option_map (λ key. key.now) result ≡ slice_get keys.now place }
{
    keys.get(place)
}
