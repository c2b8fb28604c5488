ghost use Rattle.std.specs.Prelude.{◌≡◌, ◌<◌};
ghost use Rattle.plain_apdu.specs.Service.{service_of, name_of};

/// A service of the application layer (ISO/IEC 14543-3-1), as far as this profile names it.
#[derive(Clone, Copy, Debug, PartialEq, Eq)]
pub enum Service {
    GroupValueRead,
    GroupValueResponse,
    GroupValueWrite,
    MemoryRead,
    MemoryResponse,
    MemoryWrite,
    DeviceDescriptorRead,
    DeviceDescriptorResponse,
    Restart,
    /// Any restart with further bits.
    RestartOther,
    PropertyValueRead,
    PropertyValueResponse,
    PropertyValueWrite,
    /// The secure service, whose data is a sealed application PDU.
    Secure,
    /// No service of the table, with its ten bits.
    Unknown(u16),
}

/// The service that ten bits name.
#[tactic(auto, unfolding(crate::specs::Service::service_of))]
pub fn service_of(bits: u16) -> Service
    requires { bits < 1024 }
    ensures service { result ≡ service_of bits }
{
    match bits {
        0x000..=0x03f => Service::GroupValueRead,
        0x040..=0x07f => Service::GroupValueResponse,
        0x080..=0x0bf => Service::GroupValueWrite,
        0x200..=0x23f => Service::MemoryRead,
        0x240..=0x27f => Service::MemoryResponse,
        0x280..=0x2bf => Service::MemoryWrite,
        0x300..=0x33f => Service::DeviceDescriptorRead,
        0x340..=0x37f => Service::DeviceDescriptorResponse,
        0x380 => Service::Restart,
        0x381..=0x39f => Service::RestartOther,
        0x3d5 => Service::PropertyValueRead,
        0x3d6 => Service::PropertyValueResponse,
        0x3d7 => Service::PropertyValueWrite,
        0x3f1 => Service::Secure,
        _ => Service::Unknown(bits),
    }
}

/// The name of a service as reports print it.
#[tactic(auto, unfolding(crate::specs::Service::name_of))]
pub fn service_name(service: Service) -> &'static str
    ensures name { result.now ≡ name_of service }
{
    match service {
        Service::GroupValueRead => "GroupValue_Read",
        Service::GroupValueResponse => "GroupValue_Response",
        Service::GroupValueWrite => "GroupValue_Write",
        Service::MemoryRead => "Memory_Read",
        Service::MemoryResponse => "Memory_Response",
        Service::MemoryWrite => "Memory_Write",
        Service::DeviceDescriptorRead => "DeviceDescriptor_Read",
        Service::DeviceDescriptorResponse => "DeviceDescriptor_Response",
        Service::Restart => "Restart",
        Service::RestartOther => "Restart_Other",
        Service::PropertyValueRead => "PropertyValue_Read",
        Service::PropertyValueResponse => "PropertyValue_Response",
        Service::PropertyValueWrite => "PropertyValue_Write",
        Service::Secure => "Secure",
        Service::Unknown(_) => "Unknown",
    }
}
