ghost use Rattle.std.specs.Prelude.{◌≡◌, ◌<◌, ◌+◌, length, slice_get, Some, IfOk, option_map};
ghost use Rattle.std.specs.List.{IsDistinct};
ghost use Rattle.std.specs.List.Sorted.{IsStrictlySortedBy};
ghost use Rattle.std.specs.Map.{keys_of};
ghost use Rattle.key_tables.specs.Index.{same_key, key_cmp, key_entries, role_entries, value_key, expanded_of, AreInOrder};

use crate::{Row, RowKey, RowList, RowValue, Steps};
use aes_modes::Key128;
use std::alloc::{AllocError, Global};
use std::cmp::Ordering;
use std::marker::Model;
use std::sync::ledger::Ledger;

/// The rows of one kind in the order of their keys, of which no two are the same.
///
/// A contract sees them as their list, each key with its value.
#[derive(Drop)]
pub struct RowIndex {
    entries: Vec<(RowKey, RowValue)>,
}

impl Model for RowIndex {
    ghost use Rattle.std.specs.Prelude.{List};
    ghost use Rattle.std.specs.List.Sorted.{IsStrictlySortedBy};
    ghost use Rattle.std.specs.Map.{keys_of};
    ghost use Rattle.key_tables.specs.declared.types.RowKey.{RowKey};
    ghost use Rattle.key_tables.specs.declared.types.RowValue.{RowValue};
    ghost use Rattle.key_tables.specs.Index.{key_cmp};

    ghost Value = { List (RowKey × RowValue) };

    ghost view = { λ index. index.entries.items };

    ghost invariant = { λ index. IsStrictlySortedBy key_cmp (keys_of index.entries.items) };
}

impl RowIndex {
    /// The rows that hold a key.
    #[tactic(auto, using(crate::proofs::Indexing::keys_distinct))]
    pub fn of_keys(alloc: Global, rows: &RowList) -> Result<RowIndex, AllocError>
        ensures { IfOk result (λ index. AreInOrder (key_entries rows.now) index) }
    {
        let entries = key_entries(alloc, rows.as_slice())?;
        Ok(RowIndex::sorted(entries))
    }

    /// The rows that give a role.
    #[tactic(auto, using(crate::proofs::Indexing::roles_distinct))]
    pub fn of_roles(alloc: Global, rows: &RowList) -> Result<RowIndex, AllocError>
        ensures { IfOk result (λ index. AreInOrder (role_entries rows.now) index) }
    {
        let entries = role_entries(alloc, rows.as_slice())?;
        Ok(RowIndex::sorted(entries))
    }

    fn sorted(mut entries: Vec<(RowKey, RowValue)>) -> RowIndex
        requires { IsDistinct same_key (keys_of entries.items) }
        ensures { AreInOrder entries.items result }
    {
        entries.sort_unstable_by_key(|entry| entry.0);
        RowIndex { entries }
    }

    /// How many rows there are.
    pub fn len(&self) -> usize
        ensures length { result ≡ length self.now }
        ensures ascend { IsStrictlySortedBy key_cmp (keys_of self.now) }
    {
        self.entries.len()
    }

    /// How the key of the row at a place stands to the one that is wanted, which is one step. A row's key is seen in no
    /// other way.
    pub fn compare_at<L: Ledger>(
        &self,
        place: usize,
        wanted: &RowKey,
        steps: &mut Steps<L>,
    ) -> Ordering
        requires { place < length self.now }
        ensures compared { option_map (λ entry. key_cmp entry.0 wanted.now) (slice_get self.now place) ≡ Some result }
        ensures step { steps.new ≡ steps.old + 1 }
    {
        steps.tick();
        self.entries[place].0.cmp(wanted)
    }

    /// What stands in the row at a place.
    pub fn value_at(&self, place: usize) -> RowValue
        requires { place < length self.now }
        ensures { option_map (λ entry. entry.1) (slice_get self.now place) ≡ Some result }
    {
        self.entries[place].1
    }

    // The keys, expanded, in the order of their rows.
    pub(crate) fn expanded(&self, alloc: Global) -> Result<Vec<Key128>, AllocError>
        ensures { IfOk result (λ keys. keys.items ≡ expanded_of self.now) }
    {
        self.entries.iter().filter_map(expanded).collect(alloc)
    }
}

fn expanded(entry: &(RowKey, RowValue)) -> Option<Key128>
    ensures { result ≡ value_key entry.now.1 }
{
    match &entry.1 {
        RowValue::Key(key, _) => Some(Key128::new(*key)),
        RowValue::Role(_) => None,
    }
}

fn key_entries(alloc: Global, rows: &[Row]) -> Result<Vec<(RowKey, RowValue)>, AllocError>
    ensures { IfOk result (λ entries. entries.items ≡ key_entries rows.now) }
{
    rows.iter().filter_map(Row::key_entry).collect(alloc)
}

fn role_entries(alloc: Global, rows: &[Row]) -> Result<Vec<(RowKey, RowValue)>, AllocError>
    ensures { IfOk result (λ entries. entries.items ≡ role_entries rows.now) }
{
    rows.iter().filter_map(Row::role_entry).collect(alloc)
}
