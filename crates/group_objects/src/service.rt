ghost use Rattle.std.specs.Prelude.{◌≡◌, ◌<◌, ◌≤◌, ◌++◌, length, drop};
ghost use Rattle.group_objects.specs.Apdus.{carrying, service_apdu};
ghost use Rattle.group_objects.specs.Effects.{ReadsBack};
ghost use Rattle.group_objects.specs.Value.{IsValue};

use crate::Value;
use plain_apdu::write_apdu;

/// A service that a device sends for an object.
#[derive(Clone, Copy, Debug, PartialEq, Eq)]
pub enum SendService {
    /// It asks for the value of the group.
    Read,
    /// It tells its value.
    Write,
    /// It answers a read with its value.
    Response,
}

impl SendService {
    /// Writes the application PDU of this service for an object of this value to the front of `out`, and returns its
    /// number of octets, 2 to 16 (ISO/IEC 14543-3-1, the services of group values). A read carries no value. Six bits
    /// stand in the low bits of the second octet, and octets stand after it.
    pub fn write_apdu(self, value: &Value, out: &mut [u8]) -> usize
        requires room { 16 ≤ length out.old }
        ensures size { result ≡ length (service_apdu self value.now) }
        ensures bounds { (2 ≤ result) × (result ≤ 16) }
        ensures octets { out.new ≡ service_apdu self value.now ++ drop result out.old }
        ensures reads_back { ReadsBack self value.now (service_apdu self value.now) }
    {
        match self {
            SendService::Read => write_apdu(0x000, &[], out),
            SendService::Write => write_value(0x080, value, out),
            SendService::Response => write_value(0x040, value, out),
        }
    }
}

// The value under the code of its service.
fn write_value(code: u16, value: &Value, out: &mut [u8]) -> usize
    requires code { code < 960 }
    requires room { 16 ≤ length out.old }
    ensures size { result ≡ length (carrying code value.now) }
    ensures bounds { (2 ≤ result) × (result ≤ 16) }
    ensures octets { out.new ≡ carrying code value.now ++ drop result out.old }
    ensures is_value { IsValue value.now }
{
    let octets = value.as_bytes();
    if value.is_bits() {
        write_apdu(code + octets[0] as u16, &[], out)
    } else {
        write_apdu(code, octets, out)
    }
}
