ghost use Rattle.std.specs.Prelude.{◌≡◌, ◌≤◌, length, Some};
ghost use Rattle.cemi_frames.specs.Frames.{telegram};
ghost use Rattle.plain_apdu.specs.Service as services;
ghost use Rattle.key_tables.specs.Rows.{role_of};
ghost use Rattle.judge_rules.specs.Parts.{field_in, source_of, bits_in, service_in};
ghost use Rattle.judge_rules.specs.Checks.{data_checks, first_failing, check_stale, check_level, unless_enough, check_upper, check_service, needed_role, is_service_on, is_group_service, is_tool_service, is_response};

use crate::entered::Entered;
use crate::{BadService, Verdict};
use key_tables::{Channel, Level, Role};
use knx_base::Number48;
use plain_apdu::{Service, service_of};

impl Entered<'_, '_> {
    /// The checks of data alone, in their order: number, level, role and service.
    pub(crate) fn data_refusal(
        &self,
        kept: Number48,
        number: Number48,
        role: Role,
        apdu: &[u8],
    ) -> Option<Verdict>
        requires role { role_of self.now.tables.now self.now.channel (source_of (telegram self.now.frame)) ≡ Some role }
        requires two { 2 ≤ length apdu.now }
        ensures { result ≡ first_failing (data_checks self.now.tables.now kept number self.now.channel
            (telegram self.now.frame) apdu.now) }
    {
        let bits = bits_in(apdu);
        let service = service_of(bits);
        if let Some(verdict) = stale_refusal(kept, number) {
            return Some(verdict);
        }
        if let Some(verdict) = self.level_refusal() {
            return Some(verdict);
        }
        if let Some(verdict) = role_refusal(self.channel, role, service) {
            return Some(verdict);
        }
        if let Some(verdict) = upper_refusal(apdu[0]) {
            return Some(verdict);
        }
        service_refusal(self.channel, service, bits)
    }

    // The APDU is encrypted where it should be.
    fn level_refusal(&self) -> Option<Verdict>
        ensures { result ≡ check_level self.now.tables.now self.now.channel (field_in (telegram self.now.frame)) }
    {
        if !self.is_encrypted() && self.tables.level(self.channel) == Some(Level::Conf) {
            Some(Verdict::Level)
        } else {
            None
        }
    }
}

fn stale_refusal(kept: Number48, got: Number48) -> Option<Verdict>
    ensures { result ≡ check_stale kept got }
{
    if got > kept {
        None
    } else {
        Some(Verdict::Stale { kept, got })
    }
}

// The sender's role is enough for the service.
fn role_refusal(channel: Channel, has: Role, service: Service) -> Option<Verdict>
    ensures { result ≡ unless_enough (needed_role channel service) (Some has) }
{
    let needs = needed_role(channel, service);
    if has.is_enough_for(needs) {
        None
    } else {
        Some(Verdict::Role { needs, has })
    }
}

// The upper six bits of the first octet are zero.
fn upper_refusal(first: u8) -> Option<Verdict>
    ensures { result ≡ check_upper first }
{
    if first > 3 {
        Some(Verdict::Service(BadService::UpperBits(first)))
    } else {
        None
    }
}

// The service, which these bits say, is one of the channel's.
fn service_refusal(channel: Channel, service: Service, bits: u16) -> Option<Verdict>
    requires { service ≡ services.service_of bits }
    ensures { result ≡ check_service channel bits }
{
    if is_service_on(channel, service) {
        None
    } else {
        Some(Verdict::Service(BadService::Code(bits)))
    }
}

fn needed_role(channel: Channel, service: Service) -> Role
    ensures { result ≡ needed_role channel service }
{
    match (channel, service) {
        (Channel::Group(_), Service::GroupValueWrite) => Role::Command,
        (Channel::Group(_), _) => Role::Observe,
        (Channel::Tool(_), service) if is_response(service) => Role::Observe,
        (Channel::Tool(_), _) => Role::Manage,
    }
}

fn is_response(service: Service) -> bool
    ensures { result ≡ is_response service }
{
    matches!(
        service,
        Service::GroupValueResponse
            | Service::MemoryResponse
            | Service::DeviceDescriptorResponse
            | Service::PropertyValueResponse
    )
}

fn is_service_on(channel: Channel, service: Service) -> bool
    ensures { result ≡ is_service_on channel service }
{
    match channel {
        Channel::Group(_) => is_group_service(service),
        Channel::Tool(_) => is_tool_service(service),
    }
}

fn is_group_service(service: Service) -> bool
    ensures { result ≡ is_group_service service }
{
    matches!(
        service,
        Service::GroupValueRead | Service::GroupValueResponse | Service::GroupValueWrite
    )
}

fn is_tool_service(service: Service) -> bool
    ensures { result ≡ is_tool_service service }
{
    !is_group_service(service) && !matches!(service, Service::Secure | Service::Unknown(_))
}

/// The service of an APDU.
pub(crate) fn service_in(apdu: &[u8]) -> Service
    requires { 2 ≤ length apdu.now }
    ensures { result ≡ service_in apdu.now }
{
    service_of(bits_in(apdu))
}

// The ten bits of the service.
fn bits_in(apdu: &[u8]) -> u16
    requires { 2 ≤ length apdu.now }
    ensures { result ≡ bits_in apdu.now }
{
    u16::from_be_bytes([apdu[0] & 0x03, apdu[1]])
}
