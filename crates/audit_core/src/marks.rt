ghost use Rattle.std.specs.Prelude.{◌≡◌, if◌then◌else◌, IsOk, OnErr, []};
ghost use Rattle.std.specs.Map.{lookup};
ghost use Rattle.key_tables.specs.declared.types.Lane.{Lane};
ghost use Rattle.key_tables.specs.Lanes.{same_lane};
ghost use Rattle.audit_core.specs.Audit.{mark_under};
ghost use Rattle.audit_core.specs.Marks.{mark_in};

use key_tables::Lane;
use knx_base::{NoMemory, Number48};
use std::alloc::Global;
use std::collections::BTreeMap;
use std::marker::Model;

/// The greatest number that was kept on each lane. A contract sees the lanes with their marks.
#[derive(Drop)]
pub(crate) struct Marks {
    kept: BTreeMap<Lane, Number48>,
}

impl Model for Marks {
    ghost use Rattle.audit_core.specs.Audit.{AllKept};

    ghost Value = { AllKept };

    ghost view = { λ marks. marks.kept.entries };
}

impl Marks {
    pub(crate) fn new(alloc: Global) -> Marks
        ensures empty { result ≡ [] }
    {
        Marks {
            kept: BTreeMap::new(alloc),
        }
    }

    /// The mark of a lane, 0 where it has none or there is no lane.
    pub(crate) fn mark(&self, lane: Option<Lane>) -> Number48
        ensures { result ≡ mark_under (mark_in self.now) lane }
    {
        match lane {
            Some(lane) => self.find(lane).unwrap_or(zero()),
            None => zero(),
        }
    }

    fn find(&self, lane: Lane) -> Option<Number48>
        ensures { result ≡ lookup (same_lane lane) self.now }
    {
        self.kept.get(&lane).copied()
    }

    /// Makes the number the mark of a lane.
    pub(crate) fn raise(&mut self, lane: Lane, number: Number48) -> Result<(), NoMemory>
        ensures raised { IsOk result → (other : Lane) → mark_in self.new other
            ≡ (if same_lane lane other then number else mark_in self.old other) }
        ensures unchanged { OnErr result (self.new ≡ self.old) }
    {
        match self.kept.insert(lane, number) {
            Ok(_) => Ok(()),
            Err(_) => Err(NoMemory),
        }
    }
}

#[tactic(auto, unfolding(knx_base::specs::Number::number_at))]
fn zero() -> Number48
    ensures { result ≡ 0 }
{
    Number48::from_bytes([0; 6])
}
