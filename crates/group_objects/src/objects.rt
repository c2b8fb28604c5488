ghost use Rattle.std.specs.Prelude.{◌≡◌, ◌≢◌, ℕ, ◌↔◌, ◌<◌, ◌≤◌, None, Some, [], true, length, slice_get, option_map, IfSome, IfOk, IfErr, IsNone, IsOk, OnOk, OnErr};
ghost use Rattle.std.specs.Result.{result_err};
ghost use Rattle.std.specs.List.{list_any};
ghost use Rattle.group_objects.specs.Effects.{accepted, IsExact, IsGroupApdu, KeepsForm};
ghost use Rattle.group_objects.specs.Objects.{KeepsForms, IsFirstTwice, NoneTwice, at_start, first_twice, first_values, is_of, most_rows, objects_fault, place_of, set_refusal, with_value_at};
ghost use Rattle.group_objects.specs.Value.{same_form};

use crate::{Effect, Flags, ObjectRow, Value};
use knx_base::GroupAddr;
use plain_apdu::BadObject;
use std::alloc::{AllocError, Global};
use std::marker::Model;

// The most objects of a device.
const MOST_ROWS: usize = 64;

/// Why rows are no objects.
#[derive(Clone, Copy, Debug, Drop, PartialEq, Eq)]
pub enum ObjectsFault {
    /// There are more than 64 rows.
    TooMany,
    /// The row at this place, counted from 0, is the first of a group that a row before it is of.
    Twice(usize),
    /// There was no memory.
    NoMemory,
}

impl From<AllocError> for ObjectsFault {
    ghost use Rattle.group_objects.specs.declared.objects.ObjectsFault.TheVariants.{NoMemory};

    ghost from_gives = { λ _ fault. fault ≡ NoMemory };

    fn from(_error: AllocError) -> ObjectsFault {
        ObjectsFault::NoMemory
    }
}

/// Why a value is not set.
#[derive(Clone, Copy, Debug, PartialEq, Eq)]
pub enum SetFault {
    /// There is no such object.
    NoObject,
    /// The object's values have another form.
    Size,
}

/// The objects of a device, each of a group of its own, and the value that each holds now. The form of a value never
/// changes.
///
/// A contract sees the rows and the values.
#[derive(Drop)]
pub struct Objects {
    rows: Vec<ObjectRow>,
    values: Vec<Value>,
}

impl Model for Objects {
    ghost use Rattle.group_objects.specs.Objects.{ObjectsState, KeepsForms};

    ghost Value = { ObjectsState };

    ghost view = { λ objects. record { rows = objects.rows.items; values = objects.values.items } };

    ghost invariant = { λ objects. KeepsForms (record { rows = objects.rows.items; values = objects.values.items }) };
}

impl Objects {
    /// Objects of these rows, which hold their first values. There are at most 64, and no two are of one group.
    #[tactic(auto, using(crate::proofs::Apart::none_twice, crate::proofs::Apart::is_first_twice))]
    pub fn build(alloc: Global, rows: &[ObjectRow]) -> Result<Objects, ObjectsFault>
        ensures objects { IfOk result (λ objects. objects ≡ at_start rows.now) }
        ensures stand { IsOk result → objects_fault rows.now ≡ None }
        ensures few { IsOk result → length rows.now ≤ most_rows }
        ensures apart { IsOk result → NoneTwice rows.now }
        ensures fault { IfErr result (λ fault. fault ≢ ObjectsFault.NoMemory → objects_fault rows.now ≡ Some fault) }
        ensures many { (result ≡ Err ObjectsFault.TooMany) ↔ (most_rows < length rows.now) }
        ensures twice { (place : ℕ) → result ≡ Err (ObjectsFault.Twice place) → IsFirstTwice rows.now place }
    {
        if rows.len() > MOST_ROWS {
            return Err(ObjectsFault::TooMany);
        }
        if let Some(place) = first_twice(rows) {
            return Err(ObjectsFault::Twice(place));
        }
        let values = first_values(alloc, rows)?;
        let rows = Vec::from_slice(alloc, rows)?;
        Ok(Objects { rows, values })
    }

    /// The place of the object of a group.
    pub fn find(&self, group: GroupAddr) -> Option<usize>
        ensures place { result ≡ place_of group self.now.rows }
        ensures in_range { IfSome result (λ place. place < length self.now.rows) }
    {
        self.rows.iter().position(|row| row.group == group)
    }

    /// The row of an object.
    pub fn row(&self, index: usize) -> Option<&ObjectRow>
        ensures row { option_map (λ row. row.now) result ≡ slice_get self.now.rows index }
        ensures none { IsNone result ↔ (length self.now.rows ≤ index) }
    {
        self.rows.get(index)
    }

    /// The flags of an object.
    pub fn flags(&self, index: usize) -> Option<Flags>
        ensures flags { result ≡ option_map (λ row. row.flags) (slice_get self.now.rows index) }
        ensures none { IsNone result ↔ (length self.now.rows ≤ index) }
    {
        Some(self.rows.get(index)?.flags)
    }

    /// The value that an object holds.
    pub fn value(&self, index: usize) -> Option<Value>
        ensures value { result ≡ slice_get self.now.values index }
        ensures none { IsNone result ↔ (length self.now.rows ≤ index) }
        ensures forms { KeepsForms self.now }
    {
        Some(*self.values.get(index)?)
    }

    /// What an application PDU of the object's group does to it, as `ObjectRow::accepts` says it. There is such an
    /// object, and the PDU has 2 to 242 octets, zero upper bits and a service of group values.
    pub fn accepts(&self, index: usize, apdu: &[u8]) -> Result<Effect, BadObject>
        requires there { index < length self.now.rows }
        requires group { IsGroupApdu apdu.now }
        ensures effect { option_map (λ row. accepted row apdu.now) (slice_get self.now.rows index) ≡ Some result }
        ensures form { IfSome (slice_get self.now.rows index) (λ row. IfOk result (KeepsForm row.value)) }
        ensures exact { IfSome (slice_get self.now.rows index) (λ row. IsExact row apdu.now result) }
    {
        self.rows[index].accepts(apdu)
    }

    /// Sets the value of an object, which is to have the form of the one that it holds.
    pub fn set(&mut self, index: usize, value: Value) -> Result<(), SetFault>
        ensures refusal { result_err result ≡ set_refusal (slice_get self.old.values index) value }
        ensures no_object { (result ≡ Err SetFault.NoObject) ↔ (length self.old.rows ≤ index) }
        ensures unchanged { OnErr result (self.new ≡ self.old) }
        ensures set { OnOk result (self.new ≡ with_value_at index value self.old) }
    {
        let Some(held) = self.value(index) else {
            return Err(SetFault::NoObject);
        };
        if !value.has_form(&held) {
            return Err(SetFault::Size);
        }
        self.values[index] = value;
        Ok(())
    }

    /// Puts a value of its form into an object, as a telegram that it accepts asks for.
    #[tactic(auto, using(crate::proofs::Forms::same_length))]
    pub fn put(&mut self, index: usize, value: Value)
        requires there { index < length self.old.rows }
        requires form { IfSome (slice_get self.old.rows index) (λ row. same_form value row.value ≡ true) }
        ensures put { self.new ≡ with_value_at index value self.old }
    {
        self.values[index] = value;
    }

    /// Lets every object hold its first value again.
    #[tactic(auto, using(crate::proofs::Forms::same_length))]
    pub fn reset(&mut self)
        ensures { self.new ≡ at_start self.old.rows }
    {
        put_first_values(&mut self.values, &self.rows);
    }
}

fn first_values(alloc: Global, rows: &[ObjectRow]) -> Result<Vec<Value>, AllocError>
    ensures { IfOk result (λ values. values.items ≡ first_values rows.now) }
{
    rows.iter().map(|row| row.value).collect(alloc)
}

fn put_first_values(values: &mut [Value], rows: &[ObjectRow])
    requires length { length values.old ≡ length rows.now }
    ensures { values.new ≡ first_values rows.now }
{
    for index in 0..rows.len() {
        values[index] = rows[index].value;
    }
}

// The first row whose group stood before.
fn first_twice(rows: &[ObjectRow]) -> Option<usize>
    ensures { result ≡ first_twice [] rows.now }
{
    for index in 0..rows.len() {
        if has_group(&rows[..index], rows[index].group) {
            return Some(index);
        }
    }
    None
}

fn has_group(rows: &[ObjectRow], group: GroupAddr) -> bool
    ensures { result ≡ list_any (is_of group) rows.now }
{
    rows.iter().any(|row| row.group == group)
}
