ghost use Rattle.std.specs.Prelude.{◌≡◌, ◌-◌, ◌/◌, ◌%◌, ◌==◌, length, IsTrue, MatchResult, Some, None};
ghost use Rattle.secure_apdu.specs.Secure.{is_secure, has_secure_service, algorithm_of, service_of, is_broadcast, is_unknown, is_sync, is_misfit, field_tests, first_fault, bad_secure, HasParts};

use cemi_frames::Frame;
use knx_base::Number48;
use plain_apdu::Tpci;

/// The parts of a secure frame after its service.
#[derive(Clone, Copy, Debug, PartialEq, Eq)]
pub struct Secure<'a> {
    /// the control field: bit 7 tool access, bits 6 to 4 the algorithm, bit 3 system broadcast, bits 2 to 0 the service
    pub field: u8,
    /// the number field
    pub shown: Number48,
    /// the secured APDU and its code
    pub body: &'a [u8],
}

/// What is wrong with a secure frame.
#[derive(Clone, Copy, Debug, PartialEq, Eq)]
pub enum BadSecure {
    /// Fewer than 13 octets stand after the service. This many do.
    Short(u8),
    /// An algorithm above 1.
    Algorithm(u8),
    /// System broadcast.
    Broadcast,
    /// A service that is neither data nor of a synchronisation.
    Service(u8),
    /// A synchronisation to a group, without encryption or of the wrong length: the control field, and the octets of
    /// the secured APDU.
    Sync(u8, u8),
}

const SECURE_SERVICE: [u8; 2] = [0x03, 0xf1];

// Two octets of the service, the control field, six of the number, an APDU of two, and four of the code.
const SHORTEST: usize = 15;

/// Whether a frame is secure: it carries data, and has the secure service.
pub fn is_secure(frame: &Frame<'_>) -> bool
    ensures secure { result ≡ is_secure frame.now.content.now }
{
    matches!(
        Tpci::read(frame.content[0]),
        Tpci::Data | Tpci::Connected(_)
    ) && has_secure_service(frame.content)
}

fn has_secure_service(content: &[u8]) -> bool
    ensures { result ≡ has_secure_service content.now }
{
    match content {
        [first, second, ..] => [*first & 0x03, *second] == SECURE_SERVICE,
        _ => false,
    }
}

/// The parts of a secure frame, or what is wrong with it first, by the faults of docs/RULES.md. The body has at most
/// 246 octets.
pub fn read_secure<'a>(frame: &Frame<'a>) -> Result<Secure<'a>, BadSecure>
    requires secure { IsTrue (is_secure frame.now.content.now) }
    ensures exact { MatchResult result
        (λ secure. bad_secure frame.now.content.now (frame.now.control2 / 128 % 2 == 1) ≡ None)
        (λ fault. bad_secure frame.now.content.now (frame.now.control2 / 128 % 2 == 1) ≡ Some fault) }
    ensures parts { MatchResult result (λ secure. HasParts frame.now.content.now secure.field secure.shown
        secure.body.now) (λ _. Unit {0}) }
{
    let length = frame.content.len();
    if length < SHORTEST {
        return Err(BadSecure::Short((length - 2) as u8));
    }
    let [_, _, field, n0, n1, n2, n3, n4, n5, body @ ..] = frame.content else {
        return Err(BadSecure::Short((length - 2) as u8));
    };
    match fault_of(*field, (length - 13) as u8, frame.is_group()) {
        Some(fault) => Err(fault),
        None => Ok(Secure {
            field: *field,
            shown: Number48::from_bytes([*n0, *n1, *n2, *n3, *n4, *n5]),
            body,
        }),
    }
}

// What is wrong by the control field, the length of the secured APDU, and the kind of the destination.
fn fault_of(field: u8, length: u8, group: bool) -> Option<BadSecure>
    ensures { result ≡ first_fault (field_tests field length group) }
{
    let algorithm = algorithm_of(field);
    let service = service_of(field);
    if algorithm > 1 {
        Some(BadSecure::Algorithm(algorithm))
    } else if is_broadcast(field) {
        Some(BadSecure::Broadcast)
    } else if is_unknown(service) {
        Some(BadSecure::Service(service))
    } else if is_sync(service) && (is_misfit(service, length) || algorithm == 0 || group) {
        Some(BadSecure::Sync(field, length))
    } else {
        None
    }
}

fn algorithm_of(field: u8) -> u8
    ensures { result ≡ algorithm_of field }
{
    field >> 4 & 0x07
}

fn service_of(field: u8) -> u8
    ensures { result ≡ service_of field }
{
    field & 0x07
}

fn is_broadcast(field: u8) -> bool
    ensures { result ≡ is_broadcast field }
{
    field >> 3 & 1 == 1
}

fn is_unknown(service: u8) -> bool
    ensures { result ≡ is_unknown service }
{
    !matches!(service, 0 | 2 | 3)
}

fn is_sync(service: u8) -> bool
    ensures { result ≡ is_sync service }
{
    matches!(service, 2 | 3)
}

// A request has six octets, an answer twelve.
fn is_misfit(service: u8, length: u8) -> bool
    ensures { result ≡ is_misfit service length }
{
    match service {
        2 => length != 6,
        3 => length != 12,
        _ => false,
    }
}
