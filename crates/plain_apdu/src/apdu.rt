ghost use Rattle.std.specs.Prelude.{◌≡◌, ◌+◌, ◌<◌, ◌≤◌, ◌++◌, length, drop, Ok};
ghost use Rattle.plain_apdu.specs.Apdu.{apdu_of, inner_of, inner, shown, IsInner};

use crate::service::{Service, service_of};

/// A plain application PDU.
#[derive(Clone, Copy, Debug, PartialEq, Eq)]
pub struct Apdu<'a> {
    pub service: Service,
    /// The low six bits of the second octet, where a short value stands.
    pub low: u8,
    /// What stands after the two octets of the service.
    pub content: &'a [u8],
}

/// Why octets are no plain application PDU.
#[derive(Clone, Copy, Debug, PartialEq, Eq)]
pub enum BadApdu {
    /// There are fewer than two octets.
    Short,
    /// The upper six bits of this first octet are not zero.
    UpperBits(u8),
}

/// The application PDU that the octets are. Its content is what stands from the third octet on.
#[tactic(auto, unfolding(crate::specs::Apdu::inner_of))]
pub fn read_apdu(octets: &[u8]) -> Result<Apdu<'_>, BadApdu>
    ensures exact { shown result ≡ inner_of octets.now }
    ensures spelled { IsInner octets.now (shown result) }
{
    let [first, second, content @ ..] = octets else {
        return Err(BadApdu::Short);
    };
    if *first >= 4 {
        return Err(BadApdu::UpperBits(*first));
    }
    Ok(Apdu {
        service: service_of(u16::from_be_bytes([*first, *second])),
        low: *second & 0x3f,
        content,
    })
}

/// Writes the ten bits of a service, with what they hold of a short value, and the content to the
/// front of `out`. Returns the number of octets written.
#[tactic(auto, unfolding(crate::specs::Apdu::inner_of))]
pub fn write_apdu(bits: u16, content: &[u8], out: &mut [u8]) -> usize
    requires bits { bits < 1024 }
    requires room { length content.now + 2 ≤ length out.old }
    ensures length { result ≡ length content.now + 2 }
    ensures octets { out.new ≡ apdu_of bits content.now ++ drop result out.old }
    ensures reads_back { inner_of (apdu_of bits content.now) ≡ Ok (inner bits content.now) }
{
    let [high, low] = bits.to_be_bytes();
    let end = content.len() + 2;
    out[0] = high;
    out[1] = low;
    out[2..end].copy_from_slice(content);
    end
}
