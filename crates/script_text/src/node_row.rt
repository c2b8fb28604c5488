ghost use Rattle.std.specs.Prelude.{◌≡◌, ℕ, ◌≤◌, length};

use crate::octets::Octets;
use group_objects::ObjectRow;
use knx_base::{IndAddr, Number48};
use std::marker::Model;

/// The name of a node: 1 to 16 of the letters a to z, the digits and `_`. A contract sees its octets.
#[derive(Clone, Copy, Debug, PartialEq, Eq)]
pub struct Name {
    pub(crate) octets: Octets<16>,
}

impl Model for Name {
    ghost use Rattle.std.specs.Prelude.{List, ℕ};
    ghost use Rattle.script_text.specs.Parts.{IsName};

    ghost Value = { List ℕ };

    ghost view = { λ name. name.octets };

    ghost invariant = { λ name. IsName name.octets };

    ghost inverse = { λ d. record { octets = d } };
}

impl Name {
    ghost use Rattle.script_text.specs.Parts.{IsName};

    /// The octets of the name.
    pub fn as_bytes(&self) -> &[u8]
        ensures octets { result.now ≡ self.now }
        ensures is_name { IsName self.now }
    {
        self.octets.bytes()
    }
}

/// The group objects of a node, in their order. A contract sees their list.
#[derive(Drop)]
pub struct ObjectRows {
    rows: Vec<ObjectRow>,
}

impl Model for ObjectRows {
    ghost use Rattle.std.specs.Prelude.{List};
    ghost use Rattle.group_objects.specs.declared.row.ObjectRow.{ObjectRow};

    ghost Value = { List ObjectRow };

    ghost view = { λ objects. objects.rows.items };
}

impl ObjectRows {
    /// The objects of these rows.
    pub fn new(rows: Vec<ObjectRow>) -> ObjectRows
        ensures rows { result ≡ rows.items }
    {
        ObjectRows { rows }
    }

    /// The rows, in their order.
    pub fn as_slice(&self) -> &[ObjectRow]
        ensures rows { result.now ≡ self.now }
    {
        &self.rows
    }
}

/// Numbers that a node keeps, one for each of its lanes, in the order of the lanes. A contract sees their list.
#[derive(Drop)]
pub struct Marks {
    numbers: Vec<Number48>,
}

impl Model for Marks {
    ghost use Rattle.std.specs.Prelude.{List, ℕ};

    ghost Value = { List ℕ };

    ghost view = { λ marks. marks.numbers.items };
}

impl Marks {
    /// The marks of these numbers.
    pub fn new(numbers: Vec<Number48>) -> Marks
        ensures numbers { result ≡ numbers.items }
    {
        Marks { numbers }
    }

    /// The numbers, in their order.
    pub fn as_slice(&self) -> &[Number48]
        ensures numbers { result.now ≡ self.now }
    {
        &self.numbers
    }
}

/// A node as a script begins: its name and its address, the number that it sends next, its objects, and the marks that
/// its memory holds.
#[derive(Drop)]
pub struct NodeRow {
    pub name: Name,
    pub address: IndAddr,
    pub next: Number48,
    pub objects: ObjectRows,
    pub marks: Marks,
}
