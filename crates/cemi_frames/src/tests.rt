use super::*;
use knx_base::IndAddr;
use std::test::*;

/// A group value in a secure telegram: 14 octets of data.
const SEALED: [u8; 24] = [
    0x29, 0x00, 0xbc, 0xe0, 0x11, 0x07, 0x0a, 0x03, 0x0e, 0x03, 0xf1, 0x10, 0x00, 0x00, 0x00, 0x00,
    0x00, 0x05, 0x0d, 0x58, 0x58, 0x02, 0x82, 0x67,
];

/// The value 1 to a group, as a raw frame with its check octet.
const RAW: [u8; 11] = [
    0x2b, 0x00, 0xbc, 0x11, 0x07, 0x0a, 0x03, 0xe1, 0x00, 0x81, 0x3c,
];

fn fault(octets: &[u8]) -> Option<NotFrame> {
    read_frame(octets).err()
}

#[test]
fn the_first_fault_is_answered(rt: HostRuntime) {
    assert_eq!(rt; fault(&[]), Some(NotFrame::Short(0)));
    assert_eq!(rt; fault(&[0x12, 0x00]), Some(NotFrame::Code(0x12)));
    assert_eq!(rt; fault(&[0x29]), Some(NotFrame::Short(1)));
    assert_eq!(rt;
        fault(&[0x2b, 0x00, 0xcc]),
        Some(NotFrame::Acknowledge(0xcc))
    );
    assert_eq!(rt;
        fault(&[0x2b, 0x00, 0x40, 0x00]),
        Some(NotFrame::Format(0x40))
    );
    assert_eq!(rt;
        fault(&[0x2b, 0x03, 0x03, 0x02, 0x00, 0xcc]),
        Some(NotFrame::Info(2))
    );
    assert_eq!(rt;
        fault(&[0x2b, 0x04, 0x03, 0x01, 0x00, 0x07, 0xcc]),
        Some(NotFrame::Info(5))
    );
    let octets = [
        0x2b, 0x00, 0xbc, 0x11, 0x07, 0x0a, 0x03, 0xe1, 0x00, 0x81, 0x3d,
    ];
    assert_eq!(rt; fault(&octets), Some(NotFrame::Check(0x3d, 0x3c)));
    let octets = [0x29, 0x00, 0xbc, 0xe0, 0x11, 0x07, 0x0a, 0x03, 0x01, 0x00];
    assert_eq!(rt; fault(&octets), Some(NotFrame::Length(2, 1)));
    let octets = [0x29, 0x00, 0xbc, 0xe0, 0x11, 0x07, 0x0a, 0x03, 0xff];
    assert_eq!(rt; fault(&octets), Some(NotFrame::Escape));
}

#[test]
fn a_telegram_cut_off_is_short_and_then_of_wrong_length(rt: HostRuntime) {
    for count in 0..SEALED.len() {
        let want = if count < 9 {
            NotFrame::Short(count)
        } else {
            NotFrame::Length(15, count - 9)
        };
        assert_eq!(rt; fault(&SEALED[..count]), Some(want), "{count}");
    }
    let frame = Frame {
        code: Code::Ind,
        repeated: false,
        priority: 3,
        control2: 0xe0,
        source: IndAddr(0x1107),
        destination: 0x0a03,
        content: &SEALED[9..],
    };
    assert_eq!(rt; read_frame(&SEALED), Ok(frame));
    assert!(rt; frame.is_group());
}

#[test]
fn a_repetition_is_marked_where_it_was_received(rt: HostRuntime) {
    let mut octets = SEALED;
    octets[2] = 0x9c;
    for (code, repeated) in [(0x11, false), (0x29, true), (0x2e, false)] {
        octets[0] = code;
        let found = read_frame(&octets).ok().map(|frame| frame.repeated);
        assert_eq!(rt; found, Some(repeated), "{code}");
    }
    // Additional information stands before the raw frame.
    let octets = [
        0x2b, 0x07, 0x03, 0x01, 0x00, 0x04, 0x02, 0x12, 0x34, 0x9c, 0x11, 0x07, 0x0a, 0x03, 0xe1,
        0x00, 0x81, 0x1c,
    ];
    let found = read_frame(&octets).ok().map(|frame| frame.repeated);
    assert_eq!(rt; found, Some(true));
}

#[test]
fn both_kinds_are_written_and_read_back(rt: HostRuntime) {
    let short = [0x00, 0x81];
    let long = [
        0x00, 0x80, 1, 2, 3, 4, 5, 6, 7, 8, 9, 10, 11, 12, 13, 14, 15,
    ];
    let mut out = [0; 27];
    let parts = FrameParts {
        source: IndAddr(0x1107),
        destination: 0x0a03,
        group: true,
        content: &short,
    };
    assert_eq!(rt; write_ldata(&parts, &mut out), 11);
    assert!(rt;
        out.starts_with(&[
            0x29, 0x00, 0xbc, 0xe0, 0x11, 0x07, 0x0a, 0x03, 0x01, 0x00, 0x81
        ])
    );
    assert_eq!(rt; write_busmon(&parts, &mut out), 11);
    assert!(rt; out.starts_with(&RAW));

    let parts = FrameParts {
        group: false,
        content: &long,
        ..parts
    };
    assert_eq!(rt; write_busmon(&parts, &mut out), 27);
    assert!(rt; out.starts_with(&[0x2b, 0x00, 0x3c, 0x60, 0x11, 0x07, 0x0a, 0x03, 0x10]));
    // The exclusive or of 3c 60 11 07 0a 03 10 and the content is d3.
    assert_eq!(rt; out[26], 0x2c);
    let frame = Frame {
        code: Code::Busmon,
        repeated: false,
        priority: 3,
        control2: 0x60,
        source: IndAddr(0x1107),
        destination: 0x0a03,
        content: &long,
    };
    assert_eq!(rt; read_frame(&out), Ok(frame));
}
