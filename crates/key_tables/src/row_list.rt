ghost use Rattle.std.specs.Prelude.{◌≡◌, ◌++◌, ◌∷◌, [], Some, None, true, false, IfOk, IfErr, IsOk, OnOk, OnErr};
ghost use Rattle.std.specs.List.{filter};
ghost use Rattle.key_tables.specs.Build.{is_full, is_repeated, merged, row_fault, first_fault, build_fault, Adds, AreFew, IsFault, NoneTwice};
ghost use Rattle.key_tables.specs.Index.{subject_of};
ghost use Rattle.key_tables.specs.Seen.{is_left, HasThose};

use crate::key_set::KeySet;
use crate::{BuildFault, Row};
use std::alloc::{AllocError, Global};
use std::marker::Model;

// So many rows of keys, and so many of roles, may stand in tables.
const MOST_KEYS: usize = 4096;

const MOST_ROLES: usize = 16384;

/// Rows of which none says again what one before it says, and that are not too many.
///
/// A contract sees them as their list.
#[derive(Drop)]
pub struct RowList {
    rows: Vec<Row>,
    // What the rows are found by, so that a row that says again is found in few steps.
    seen: KeySet,
    keys: usize,
    roles: usize,
}

impl Model for RowList {
    ghost use Rattle.std.specs.Prelude.{List};
    ghost use Rattle.key_tables.specs.declared.types.Row.{Row};
    ghost use Rattle.key_tables.specs.Seen.{IsKept};

    ghost Value = { List Row };

    ghost view = { λ list. list.rows.items };

    ghost invariant = { λ list. IsKept list.rows.items list.seen list.keys list.roles };
}

impl RowList {
    /// No rows.
    #[tactic(auto, unfolding(crate::specs::Build::build_fault))]
    pub fn new(alloc: Global) -> RowList
        ensures { result ≡ [] }
    {
        RowList {
            rows: Vec::new(alloc),
            seen: KeySet::new(alloc),
            keys: 0,
            roles: 0,
        }
    }

    // The rows of the list above, and those of the list below that it does not displace.
    #[tactic(auto, unfolding(crate::specs::Build::build_fault, crate::specs::Build::merged))]
    pub(crate) fn merged(alloc: Global, over: &[Row], under: &[Row]) -> Result<RowList, BuildFault>
        ensures rows { IfOk result (λ list. list ≡ merged over.now under.now) }
        ensures stand { IsOk result → build_fault (merged over.now under.now) ≡ None }
        ensures fault { IfErr result (λ fault. IsFault fault (build_fault (merged over.now under.now))) }
    {
        let said = subjects(alloc, over)?;
        let mut list = RowList::new(alloc);
        list.add_all(over)?;
        list.add_kept(under, &said)?;
        Ok(list)
    }

    /// The rows, in their order.
    pub fn as_slice(&self) -> &[Row]
        ensures rows { result.now ≡ self.now }
        ensures stand { build_fault self.now ≡ None }
        ensures once { NoneTwice self.now }
        ensures few { AreFew self.now }
    {
        &self.rows
    }

    // The rows, in their order, without what is kept beside them.
    pub(crate) fn into_rows(self) -> Vec<Row>
        ensures rows { result.items ≡ self }
        ensures stand { build_fault self ≡ None }
        ensures once { NoneTwice self }
        ensures few { AreFew self }
    {
        let RowList { rows, .. } = self;
        rows
    }

    /// Adds a row at the end, unless it may not stand there.
    #[tactic(auto, unfolding(crate::specs::Build::row_fault))]
    pub fn add(&mut self, row: Row) -> Result<(), BuildFault>
        ensures added { OnOk result ((self.new ≡ self.old ++ row ∷ []) × (row_fault self.old row ≡ None)) }
        ensures fault { IfErr result (λ fault. IsFault fault (row_fault self.old row)) }
        ensures memory { IfErr result (λ fault. fault ≡ BuildFault.NoMemory → row_fault self.old row ≡ None) }
        ensures unchanged { OnErr result (self.new ≡ self.old) }
    {
        if self.is_full(&row) {
            return Err(self.fault_when_full(&row));
        }
        self.add_new(row)
    }

    // Adds the rows in turn, up to the first that may not stand.
    pub(crate) fn add_all(&mut self, rows: &[Row]) -> Result<(), BuildFault>
        ensures added { OnOk result (Adds self.old self.new rows.now) }
        ensures fault { IfErr result (λ fault. IsFault fault (first_fault self.old rows.now)) }
    {
        'rows: for row in rows {
            self.add(*row)?;
        }
        Ok(())
    }

    // The same of the rows that say nothing of what is said.
    pub(crate) fn add_kept(&mut self, rows: &[Row], said: &KeySet) -> Result<(), BuildFault>
        ensures added { OnOk result (Adds self.old self.new (filter (is_left said.now) rows.now)) }
        ensures fault { IfErr result (λ fault. IsFault fault (first_fault self.old
            (filter (is_left said.now) rows.now))) }
    {
        'rows: for row in rows {
            if is_left(said, row) {
                self.add(*row)?;
            }
        }
        Ok(())
    }

    // Adds a row for which there is room, unless one before it says the same.
    #[tactic(auto, unfolding(crate::specs::Build::row_fault), using(crate::proofs::KeySets::held_is))]
    fn add_new(&mut self, row: Row) -> Result<(), BuildFault>
        requires { is_full self.old row ≡ false }
        ensures added { OnOk result ((self.new ≡ self.old ++ row ∷ []) × (row_fault self.old row ≡ None)) }
        ensures fault { IfErr result (λ fault. IsFault fault (row_fault self.old row)) }
        ensures memory { IfErr result (λ fault. fault ≡ BuildFault.NoMemory → row_fault self.old row ≡ None) }
        ensures unchanged { OnErr result (self.new ≡ self.old) }
    {
        let key = row.row_key();
        if !self.seen.insert(key)? {
            return Err(BuildFault::Twice(self.rows.len()));
        }
        if self.rows.push(row).is_err() {
            self.seen.remove(&key);
            return Err(BuildFault::NoMemory);
        }
        match row {
            Row::Role { .. } => self.roles += 1,
            Row::Group { .. } | Row::Tool { .. } => self.keys += 1,
        }
        Ok(())
    }

    // Why a row may not stand where as many of its kind stand as may.
    #[tactic(auto, unfolding(crate::specs::Build::row_fault))]
    fn fault_when_full(&self, row: &Row) -> BuildFault
        requires { is_full self.now row.now ≡ true }
        ensures { row_fault self.now row.now ≡ Some result }
    {
        if self.is_repeated(row) {
            BuildFault::Twice(self.rows.len())
        } else {
            BuildFault::TooMany(self.rows.len())
        }
    }

    fn is_repeated(&self, row: &Row) -> bool
        ensures { result ≡ is_repeated self.now row.now }
    {
        self.seen.contains(&row.row_key())
    }

    fn is_full(&self, row: &Row) -> bool
        ensures { result ≡ is_full self.now row.now }
    {
        match row {
            Row::Role { .. } => self.roles >= MOST_ROLES,
            Row::Group { .. } | Row::Tool { .. } => self.keys >= MOST_KEYS,
        }
    }
}

// The row says nothing of what is said.
fn is_left(said: &KeySet, row: &Row) -> bool
    ensures { result ≡ is_left said.now row.now }
{
    !said.contains(&row.subject())
}

// What the rows say something of.
fn subjects(alloc: Global, rows: &[Row]) -> Result<KeySet, AllocError>
    ensures { IfOk result (λ said. HasThose subject_of rows.now said) }
{
    let mut said = KeySet::new(alloc);
    'rows: for row in rows {
        said.insert(row.subject())?;
    }
    Ok(said)
}
