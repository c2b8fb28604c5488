ghost use Rattle.std.specs.Prelude.{◌≡◌, ◌<◌, length, slice_index, IfOk};
ghost use Rattle.group_objects.specs.Effects.{accepted, IsExact, IsGroupApdu, KeepsForm};
ghost use Rattle.group_objects.specs.Apdus.{service_in};

use crate::Value;
use knx_base::GroupAddr;
use plain_apdu::{BadObject, Service, service_of};

/// Which services of a group an object takes part in.
#[derive(Clone, Copy, Debug, PartialEq, Eq)]
pub struct Flags {
    /// Telegrams may read its value.
    pub reads: bool,
    /// Telegrams may write its value.
    pub writes: bool,
    /// Answers of others to a read may write its value.
    pub updates: bool,
    /// The device sends telegrams for it.
    pub transmits: bool,
}

/// A group object of a configuration: its group, its flags, and the value that it has at a start.
#[derive(Clone, Copy, Debug, PartialEq, Eq)]
pub struct ObjectRow {
    pub group: GroupAddr,
    pub flags: Flags,
    pub value: Value,
}

/// What a telegram does to an object.
#[derive(Clone, Copy, Debug, PartialEq, Eq)]
pub enum Effect {
    /// It asks for the value.
    Read,
    /// It writes this value.
    Write(Value),
    /// It is the answer to a read, with this value.
    Response(Value),
}

impl ObjectRow {
    /// What an application PDU of a group does to the object. A read needs the flag `reads`, a write `writes`, and a
    /// response `updates`; no flag is for any other service. Without the flag the answer is `Flag`, and then, where the
    /// PDU has not the size of those that carry a value of the object's form, `Size`.
    #[tactic(auto, using(crate::proofs::Asking::is_exact))]
    pub fn accepts(&self, apdu: &[u8]) -> Result<Effect, BadObject>
        requires short { length apdu.now < 256 }
        ensures effect { result ≡ accepted self.now apdu.now }
        ensures form { IfOk result (λ effect. KeepsForm self.now.value effect) }
        ensures exact { IsGroupApdu apdu.now → IsExact self.now apdu.now result }
    {
        self.effect_of(apdu)
    }

    fn effect_of(&self, apdu: &[u8]) -> Result<Effect, BadObject>
        requires short { length apdu.now < 256 }
        ensures effect { result ≡ accepted self.now apdu.now }
        ensures form { IfOk result (λ effect. KeepsForm self.now.value effect) }
    {
        match service_in(apdu) {
            Service::GroupValueRead if self.flags.reads => Ok(Effect::Read),
            Service::GroupValueWrite if self.flags.writes => {
                Ok(Effect::Write(self.value.read_sized(apdu)?))
            },
            Service::GroupValueResponse if self.flags.updates => {
                Ok(Effect::Response(self.value.read_sized(apdu)?))
            },
            _ => Err(BadObject::Flag),
        }
    }
}

// The service that the ten bits name, with zeros for octets that are not there.
fn service_in(apdu: &[u8]) -> Service
    ensures { result ≡ service_in apdu.now }
{
    let bits = u16::from_be_bytes([octet(apdu, 0) & 3, octet(apdu, 1)]);
    service_of(bits)
}

fn octet(apdu: &[u8], at: usize) -> u8
    ensures { result ≡ slice_index apdu.now at }
{
    match apdu.get(at) {
        Some(octet) => *octet,
        None => 0,
    }
}
