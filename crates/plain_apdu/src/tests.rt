use super::*;
use std::test::*;

#[test]
fn services_print_their_names(rt: HostRuntime) {
    let rows: [(u16, &str); 28] = [
        (0x000, "GroupValue_Read"),
        (0x03f, "GroupValue_Read"),
        (0x040, "GroupValue_Response"),
        (0x080, "GroupValue_Write"),
        (0x0bf, "GroupValue_Write"),
        (0x0c0, "Unknown"),
        (0x1ff, "Unknown"),
        (0x200, "Memory_Read"),
        (0x240, "Memory_Response"),
        (0x280, "Memory_Write"),
        (0x2bf, "Memory_Write"),
        (0x2c0, "Unknown"),
        (0x300, "DeviceDescriptor_Read"),
        (0x340, "DeviceDescriptor_Response"),
        (0x37f, "DeviceDescriptor_Response"),
        (0x380, "Restart"),
        (0x381, "Restart_Other"),
        (0x39f, "Restart_Other"),
        (0x3a0, "Unknown"),
        (0x3d4, "Unknown"),
        (0x3d5, "PropertyValue_Read"),
        (0x3d6, "PropertyValue_Response"),
        (0x3d7, "PropertyValue_Write"),
        (0x3d8, "Unknown"),
        (0x3f0, "Unknown"),
        (0x3f1, "Secure"),
        (0x3f2, "Unknown"),
        (0x3ff, "Unknown"),
    ];
    for (bits, name) in rows {
        assert_eq!(rt; service_name(service_of(bits & 0x3ff)), name, "{bits}");
    }
}

#[test]
fn control_octets_have_their_kinds(rt: HostRuntime) {
    let rows = [
        (0x00, Tpci::Data),
        (0x03, Tpci::Data),
        (0x04, Tpci::Other(0x04)),
        (0x43, Tpci::Connected(0)),
        (0x7c, Tpci::Connected(15)),
        (0x80, Tpci::Connect),
        (0x81, Tpci::Disconnect),
        (0x82, Tpci::Other(0x82)),
        (0xc1, Tpci::Other(0xc1)),
        (0xc6, Tpci::Ack(1)),
        (0xff, Tpci::Nak(15)),
    ];
    for (octet, kind) in rows {
        assert_eq!(rt; Tpci::read(octet), kind, "{octet}");
    }
}

/// A group's value 1 as the standard writes it: 00 81.
#[test]
fn a_written_value_reads_back(rt: HostRuntime) {
    let mut out = [0xaa; 5];
    assert_eq!(rt; write_apdu(0x081, &[0x0c, 0x1a], &mut out), 4);
    assert_eq!(rt; out, [0x00, 0x81, 0x0c, 0x1a, 0xaa]);
    let value = Apdu {
        service: Service::GroupValueWrite,
        low: 1,
        content: &[0x0c, 0x1a],
    };
    assert_eq!(rt; read_apdu(&out[..4]), Ok(value));
    assert_eq!(rt; read_apdu(&out[..1]), Err(BadApdu::Short));
    assert_eq!(rt; read_apdu(&[0x04, 0x81]), Err(BadApdu::UpperBits(4)));
}
