ghost use Rattle.std.specs.Prelude.{◌≡◌, true, length, IsOk, IfOk};
ghost use Rattle.std.specs.List.{list_any};
ghost use Rattle.key_tables.specs.Lanes.{is_any};
ghost use Rattle.seq_store.specs.Layout.{store_size};
ghost use Rattle.seq_store.specs.Store.{store_state, lanes_of};

use crate::{MirroredNvm, NotStarted, Part, send, start, take};
use aes_modes::Key128;
use cemi_frames::read_frame;
use judge_rules::Verdict;
use key_tables::{Channel, LaneList, Level, Role, Row, Tables, lanes};
use knx_base::{GroupAddr, IndAddr, Number48};
use nvm_model::trial::FailingNvm;
use nvm_model::{Nvm, NvmFault, SimNvm};
use plain_apdu::Service;
use secure_apdu::{ApduBuf, FrameBuf};
use seq_store::{DrawFault, SeqStore, StoreFault, format_store};
use std::alloc::Global;
use std::test::Fail;

// A push button at 1.1.7 and a lamp at 1.1.9, both of the group 1/2/3.
const KEY: [u8; 16] = [0, 1, 2, 3, 4, 5, 6, 7, 8, 9, 10, 11, 12, 13, 14, 15];

const GROUP: GroupAddr = GroupAddr(0x0a03);

const PUSH: IndAddr = IndAddr(0x1107);

const LAMP: IndAddr = IndAddr(0x1109);

// Of the button: a write of 1 under number 1, computed from the rules by other means.
const WRITE_1: [u8; 24] = [
    0x29, 0x00, 0xbc, 0xe0, 0x11, 0x07, 0x0a, 0x03, 0x0e, 0x03, 0xf1, 0x10, 0x00, 0x00, 0x00, 0x00,
    0x00, 0x01, 0x50, 0x56, 0x4c, 0x84, 0x6d, 0xe5,
];

const APDU: [u8; 2] = [0x00, 0x81];

// The octets of a memory of one lane.
const SIZE: usize = 298;

const ROWS: [Row; 2] = [
    Row::Group {
        address: GROUP,
        key: KEY,
        level: Level::Conf,
    },
    Row::Role {
        channel: Channel::Group(GROUP),
        sender: Some(PUSH),
        role: Role::Command,
    },
];

fn number(value: u64) -> Result<Number48, Fail> {
    Ok(Number48::new(value).ok_or("too great")?)
}

// Whether a role row is of any sender.
fn has_any(rows: &[Row]) -> bool
    ensures { result ≡ list_any is_any rows.now }
{
    rows.iter().any(is_any)
}

fn is_any(row: &Row) -> bool
    ensures { result ≡ is_any row.now }
{
    matches!(row, Row::Role { sender: None, .. })
}

fn lamp_lanes(alloc: Global) -> Result<LaneList, Fail> {
    if has_any(&ROWS) {
        return Err(Fail::from("a role of any sender"));
    }
    Ok(lanes(alloc, &ROWS, LAMP, &[GROUP])?)
}

fn lamp_tables(alloc: Global) -> Result<Tables, Fail> {
    Ok(Tables::build(alloc, &ROWS).map_err(|_| Fail::from("no tables"))?)
}

// Formats a memory of one lane with zeros, and starts a store over it.
fn new_store<M: Nvm + Drop>(alloc: Global, mut memory: M) -> Result<SeqStore<M>, Fail> {
    let zero = number(0)?;
    if memory.size() != SIZE || format_store(&mut memory, zero, &[zero]).is_err() {
        return Err(Fail::from("not formatted"));
    }
    started(alloc, memory)
}

fn started<M: Nvm + Drop>(alloc: Global, memory: M) -> Result<SeqStore<M>, Fail> {
    match start(alloc, 1, memory) {
        Ok(store) => Ok(store),
        Err(_) => Err(Fail::from("not started")),
    }
}

// What a button answers to a send, and the octets of the frame that it hands out.
fn sent<M: Nvm>(
    store: &mut SeqStore<M>,
    out: &mut FrameBuf,
) -> Result<Result<Number48, DrawFault>, Fail> {
    if !store.is_sound() {
        return Err(Fail::from("not sound"));
    }
    Ok(send(store, &Key128::new(KEY), PUSH, GROUP, &APDU, out))
}

#[test]
fn a_telegram_is_sealed_under_the_number_that_was_drawn(rt: HostRuntime) -> Result<(), Fail> {
    let mut out = FrameBuf::new();
    let mut store = new_store(rt.alloc(), SimNvm::new(rt.alloc(), SIZE)?)?;
    assert_eq!(rt; sent(&mut store, &mut out)?, Ok(number(1)?));
    assert_eq!(rt; out.bytes(), WRITE_1.as_slice());
    // Four calls format it, two start it, and the seventh reads it for the draw.
    let mut out = FrameBuf::new();
    let mut store = new_store(rt.alloc(), FailingNvm::new(rt.alloc(), SIZE, 8, 0)?)?;
    assert_eq!(rt;
        sent(&mut store, &mut out)?,
        Err(DrawFault::Memory(NvmFault::Failed))
    );
    assert!(rt; out.bytes().is_empty());
    assert!(rt; !store.is_sound());
    Ok(())
}

// A part that fails at one of its writes.
#[derive(Drop)]
struct Bench {
    writes: u32,
    failing: u32,
}

impl Part for Bench {
    fn write(&mut self, _at: usize, _bytes: &[u8]) -> bool {
        self.writes = self.writes.saturating_add(1);
        self.writes != self.failing
    }
}

// Each row: the write that fails, and what comes of a send. Four writes format the part, and two draw a number.
#[test]
fn a_store_stands_over_a_driver(rt: HostRuntime) -> Result<(), Fail> {
    let failed = Err(DrawFault::Memory(NvmFault::Failed));
    for (failing, want) in [(5, failed), (6, failed), (7, Ok(number(1)?))] {
        let part = Bench { writes: 0, failing };
        let octets = vec![in rt.alloc(); 0u8; SIZE]?;
        let mut store = new_store(rt.alloc(), MirroredNvm::new(part, octets))?;
        assert_eq!(rt;
            sent(&mut store, &mut FrameBuf::new())?,
            want,
            "at {failing}"
        );
        let part = store.into_memory().into_part();
        assert_eq!(rt; part.writes, if failing < 6 { failing } else { 6 });
    }
    Ok(())
}

// What comes of a telegram, and whether its APDU is handed out.
#[derive(Clone, Copy, Debug, PartialEq, Eq)]
struct Seen {
    taken: Result<Option<Verdict>, NvmFault>,
    handed: bool,
}

const FAILED: Seen = Seen {
    taken: Err(NvmFault::Failed),
    handed: false,
};

fn accepted() -> Result<Seen, Fail> {
    Ok(Seen {
        taken: Ok(Some(Verdict::Accepted {
            number: number(1)?,
            service: Service::GroupValueWrite,
        })),
        handed: true,
    })
}

fn stale() -> Result<Seen, Fail> {
    Ok(Seen {
        taken: Ok(Some(Verdict::Stale {
            kept: number(1)?,
            got: number(1)?,
        })),
        handed: false,
    })
}

// The lamp takes the telegram.
fn see<M: Nvm>(alloc: Global, store: &mut SeqStore<M>, octets: &[u8]) -> Result<Seen, Fail> {
    let lanes = lamp_lanes(alloc)?;
    let tables = lamp_tables(alloc)?;
    if !store.is_sound() || store.memory().size() != SIZE || lanes.as_slice().len() != 1 {
        return Err(Fail::from("not of one lane"));
    }
    let Ok(frame) = read_frame(octets) else {
        return Err(Fail::from("no frame"));
    };
    let mut apdu = ApduBuf::new();
    let taken = take(store, &lanes, &tables, &frame, &mut apdu);
    let handed = apdu.bytes() == APDU.as_slice();
    if !handed && !apdu.bytes().is_empty() {
        return Err(Fail::from("other octets"));
    }
    Ok(Seen { taken, handed })
}

#[test]
fn a_telegram_is_acted_on_once(rt: HostRuntime) -> Result<(), Fail> {
    let mut store = new_store(rt.alloc(), SimNvm::new(rt.alloc(), SIZE)?)?;
    assert_eq!(rt; see(rt.alloc(), &mut store, &WRITE_1)?, accepted()?);
    assert_eq!(rt; see(rt.alloc(), &mut store, &WRITE_1)?, stale()?);
    let mut plain = WRITE_1;
    plain[10] = 0x81;
    let nothing = Seen {
        taken: Ok(None),
        handed: false,
    };
    assert_eq!(rt; see(rt.alloc(), &mut store, &plain)?, nothing);
    Ok(())
}

// Each row: the call of the memory that fails, the octet that a write leaves then, and what comes of the same telegram
// after another start. The eighth call writes a record, and the ninth opens its gate.
#[test]
fn nothing_is_handed_out_where_the_mark_is_not_raised(rt: HostRuntime) -> Result<(), Fail> {
    let rows = [
        (7, 0x00, accepted()?),
        (8, 0xa5, accepted()?),
        (9, 0x00, accepted()?),
        (9, 0xa5, stale()?),
    ];
    for (call, torn, again) in rows {
        let memory = FailingNvm::new(rt.alloc(), SIZE, call, torn)?;
        let mut store = new_store(rt.alloc(), memory)?;
        assert_eq!(rt;
            see(rt.alloc(), &mut store, &WRITE_1)?,
            FAILED,
            "call {call}"
        );
        assert!(rt; !store.is_sound());
        let mut store = started(rt.alloc(), store.into_memory())?;
        assert_eq!(rt;
            see(rt.alloc(), &mut store, &WRITE_1)?,
            again,
            "call {call}"
        );
    }
    Ok(())
}

#[test]
fn a_memory_that_does_not_fit_is_handed_back(rt: HostRuntime) -> Result<(), Fail> {
    let Err(NotStarted::Size(memory)) = start(rt.alloc(), 2, SimNvm::new(rt.alloc(), SIZE)?) else {
        return Err(Fail::from("another answer"));
    };
    let Err(NotStarted::Store(refused)) = start(rt.alloc(), 1, memory) else {
        return Err(Fail::from("another answer"));
    };
    assert_eq!(rt; refused.fault, StoreFault::Unformatted(0));
    Ok(())
}
