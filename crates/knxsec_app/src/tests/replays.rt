ghost use Rattle.std.specs.Prelude.{◌≡◌, IfOk, [], ◌∷◌, codes, map};
ghost use Rattle.std.specs.String.{string_bytes};

use super::printed;
use crate::{Status, run};
use install_run::World;
use knx_base::{MemFiles, MemSink};
use std::alloc::Global;
use std::test::Fail;

// A push button at 1.1.7 and a lamp at 1.1.9, both of the group 1/2/3.
const PLAIN: &str = "knx-script 1\n\
     group 1/2/3 000102030405060708090a0b0c0d0e0f conf\n\
     role 1/2/3 1.1.7 command\n\
     node push 1.1.7 1\n\
     object push 1/2/3 t bits 01\n\
     node lamp 1.1.9 1\n\
     object lamp 1/2/3 w bits 00\n";

// The same, as it stands in the folder `examples`.
const EXAMPLE: &str =
    "# A push button writes to a lamp. The lamp loses power inside the first write of its memory.\n\
     knx-script 1\n\
     group 1/2/3 000102030405060708090a0b0c0d0e0f conf\n\
     role 1/2/3 1.1.7 command\n\
     node push 1.1.7 1\n\
     object push 1/2/3 t bits 01\n\
     node lamp 1.1.9 1\n\
     object lamp 1/2/3 w bits 00\n";

// The button has one number left.
const LAST: &str = "knx-script 1\n\
     group 1/2/3 000102030405060708090a0b0c0d0e0f conf\n\
     role 1/2/3 1.1.7 command\n\
     node push 1.1.7 281474976710655\n\
     object push 1/2/3 t bits 01\n\
     node lamp 1.1.9 1\n\
     object lamp 1/2/3 w bits 00\n";

// The lamp has a tool key, the button may manage it, and it kept number 500 of the button.
const DEVICE: &str = "knx-script 1\n\
     group 1/2/3 000102030405060708090a0b0c0d0e0f conf\n\
     tool 1.1.9 000102030405060708090a0b0c0d0e0f\n\
     role 1/2/3 1.1.7 command\n\
     role tool:1.1.9 1.1.7 manage\n\
     node push 1.1.7 1\n\
     object push 1/2/3 t bits 01\n\
     node lamp 1.1.9 1\n\
     object lamp 1/2/3 w bits 00\n\
     mark lamp run:1.1.7 500\n";

// The nodes at the end of a run, with the front of their memories' octets and how many zeros stand behind.
const PUSH: (&str, usize) = (
    "node push running journal 0 reserved 64\n\
     object 0 01\n\
     lane run:1.1.7 kept 0\n\
     image a50000000000000000000000000000000000000000a500000000000040",
    269,
);

const LAMP: (&str, usize) = (
    "node lamp running journal 0 reserved 0\n\
     object 0 00\n\
     lane run:1.1.7 kept 0\n\
     image a50000000000000000000000000000000000000000",
    277,
);

// It acted on the first telegram.
const LAMP_LIT: (&str, usize) = (
    "node lamp running journal 1 reserved 0\n\
     object 0 01\n\
     lane run:1.1.7 kept 1\n\
     image a50000000000000000000000000000000000000000a501000000000001",
    269,
);

// It kept the number of the first telegram, and did not act.
const LAMP_DARK: (&str, usize) = (
    "node lamp running journal 0 reserved 0\n\
     object 0 00\n\
     lane run:1.1.7 kept 1\n\
     image a50000000000000000000000000000000000000000a501000000000001",
    269,
);

// A script, and the pieces of its report, each with so many octets of zeros behind it: a memory begins with a bank of a
// gate, a generation of eight octets, numbers of six, and records of a gate, an index and a number.
#[derive(Drop)]
pub(super) struct Row {
    head: &'static str,
    events: &'static str,
    report: &'static [(&'static str, usize)],
}

impl Row {
    pub(super) fn script(&self, alloc: Global) -> Result<String, Fail> {
        let mut text = String::from_str(alloc, self.head)?;
        text.push_str(self.events)?;
        Ok(text)
    }

    pub(super) fn report(&self, alloc: Global) -> Result<String, Fail> {
        let mut text = String::new(alloc);
        for (piece, zeros) in self.report {
            text.push_str(piece)?;
            for _ in 0..*zeros {
                text.push_str("00")?;
            }
            if *zeros > 0 {
                text.push_str("\n")?;
            }
        }
        Ok(text)
    }
}

// A telegram is acted on once, and is gone where it was lost.
pub(super) const ONE_WRITE: Row = Row {
    head: PLAIN,
    events: "send push 0 write\n\
             deliver 1 lamp\n\
             deliver 1 lamp\n\
             lose 1\n\
             deliver 1 lamp\n",
    report: &[
        (
            "1 air 1 number 1\n\
             2 acted number 1 lane run:1.1.7 GroupValue_Write object 0 value 01\n\
             3 stale kept 1 got 1\n\
             4 lost\n\
             5 gone\n",
            0,
        ),
        PUSH,
        LAMP_LIT,
        ("events 5 telegrams 1\n", 0),
    ],
};

pub(super) fn replay_words(alloc: Global) -> Result<Vec<String>, Fail>
    ensures { IfOk result (λ words. map string_bytes words.items ≡ codes "replay" ∷ codes "script" ∷ []) }
{
    let mut words = Vec::new(alloc);
    words.push(String::from_str(alloc, "replay")?)?;
    words.push(String::from_str(alloc, "script")?)?;
    Ok(words)
}

// What a replay of this script prints into a sink with this room, and its status.
fn replayed(
    alloc: Global,
    script: &str,
    room: usize,
    played: &mut Option<World>,
) -> Result<(MemSink, Status), Fail> {
    if script.len() > 10_000 {
        return Err(Fail::from("a short text"));
    }
    let words = replay_words(alloc)?;
    let mut files = MemFiles::new(alloc);
    files.add("script", script.as_bytes())?;
    let mut out = MemSink::new(alloc, room)?;
    let status = run(alloc, &words, &mut files, &mut out, played);
    Ok((out, status))
}

#[test]
fn each_event_is_told_and_how_it_ends(rt: HostRuntime) -> Result<(), Fail> {
    let alloc = rt.alloc();
    let rows = [
        ONE_WRITE,
        // The number is torn under a closed gate, and the mark is as before: the script of the folder `examples`.
        Row {
            head: EXAMPLE,
            events: "send push 0 write\n\
                     cut lamp 1 a5\n\
                     deliver 1 lamp\n\
                     on lamp\n\
                     deliver 1 lamp\n\
                     deliver 1 lamp\n",
            report: &[
                (
                    "1 air 1 number 1\n\
                     2 armed\n\
                     3 cut\n\
                     4 on next 1 run:1.1.7=0\n\
                     5 acted number 1 lane run:1.1.7 GroupValue_Write object 0 value 01\n\
                     6 stale kept 1 got 1\n",
                    0,
                ),
                PUSH,
                LAMP_LIT,
                ("events 6 telegrams 1\n", 0),
            ],
        },
        // The gate is torn open: the mark rose, and nothing was done.
        Row {
            head: PLAIN,
            events: "send push 0 write\n\
                     cut lamp 2 a5\n\
                     deliver 1 lamp\n\
                     on lamp\n\
                     deliver 1 lamp\n",
            report: &[
                (
                    "1 air 1 number 1\n\
                     2 armed\n\
                     3 cut\n\
                     4 on next 1 run:1.1.7=1\n\
                     5 stale kept 1 got 1\n",
                    0,
                ),
                PUSH,
                LAMP_DARK,
                ("events 5 telegrams 1\n", 0),
            ],
        },
        // What a loss left under a closed gate is not opened by the next one.
        Row {
            head: PLAIN,
            events: "send push 0 write\n\
                     cut lamp 2 07\n\
                     deliver 1 lamp\n\
                     on lamp\n\
                     cut lamp 1 a5\n\
                     deliver 1 lamp\n\
                     on lamp\n\
                     deliver 1 lamp\n",
            report: &[
                (
                    "1 air 1 number 1\n\
                     2 armed\n\
                     3 cut\n\
                     4 on next 1 run:1.1.7=0\n\
                     5 armed\n\
                     6 cut\n\
                     7 on next 1 run:1.1.7=0\n\
                     8 acted number 1 lane run:1.1.7 GroupValue_Write object 0 value 01\n",
                    0,
                ),
                PUSH,
                LAMP_LIT,
                ("events 8 telegrams 1\n", 0),
            ],
        },
        // The second mark is torn, and the first one stands.
        Row {
            head: PLAIN,
            events: "send push 0 write\n\
                     send push 0 write\n\
                     deliver 1 lamp\n\
                     cut lamp 1 a5\n\
                     deliver 2 lamp\n\
                     on lamp\n\
                     deliver 2 lamp\n",
            report: &[
                (
                    "1 air 1 number 1\n\
                     2 air 2 number 2\n\
                     3 acted number 1 lane run:1.1.7 GroupValue_Write object 0 value 01\n\
                     4 armed\n\
                     5 cut\n\
                     6 on next 1 run:1.1.7=1\n\
                     7 acted number 2 lane run:1.1.7 GroupValue_Write object 0 value 01\n",
                    0,
                ),
                PUSH,
                (
                    "node lamp running journal 2 reserved 0\n\
                     object 0 01\n\
                     lane run:1.1.7 kept 2\n\
                     image a50000000000000000000000000000000000000000a501000000000001a501000000000002",
                    261,
                ),
                ("events 7 telegrams 2\n", 0),
            ],
        },
        // After a restart the numbers that were reserved are not used.
        Row {
            head: PLAIN,
            events: "send push 0 write\n\
                     off push\n\
                     send push 0 write\n\
                     on push\n\
                     send push 0 write\n",
            report: &[
                (
                    "1 air 1 number 1\n\
                     2 down\n\
                     3 off\n\
                     4 on next 65 run:1.1.7=0\n\
                     5 air 2 number 65\n",
                    0,
                ),
                (
                    "node push running journal 0 reserved 128\n\
                     object 0 01\n\
                     lane run:1.1.7 kept 0\n\
                     image a50000000000000000000000000000000000000000a500000000000040a500000000000080",
                    261,
                ),
                LAMP,
                ("events 5 telegrams 2\n", 0),
            ],
        },
        // There is no number behind the last one.
        Row {
            head: LAST,
            events: "send push 0 write\n\
                     send push 0 write\n",
            report: &[
                (
                    "1 air 1 number 281474976710655\n\
                     2 exhausted\n",
                    0,
                ),
                (
                    "node push running journal 0 reserved 281474976710655\n\
                     object 0 01\n\
                     lane run:1.1.7 kept 0\n\
                     image a50000000000000000fffffffffffe000000000000a500ffffffffffff",
                    269,
                ),
                LAMP,
                ("events 2 telegrams 1\n", 0),
            ],
        },
        // A write that fails stops the node, and its power stays.
        Row {
            head: PLAIN,
            events: "fault lamp 1 00\n\
                     send push 0 write\n\
                     deliver 1 lamp\n\
                     deliver 1 lamp\n\
                     on lamp\n",
            report: &[
                (
                    "1 armed\n\
                     2 air 1 number 1\n\
                     3 fault\n\
                     4 off\n\
                     5 on next 1 run:1.1.7=0\n",
                    0,
                ),
                PUSH,
                LAMP,
                ("events 5 telegrams 1\n", 0),
            ],
        },
        // A synchronisation lifts the numbers above the lamp's mark.
        Row {
            head: DEVICE,
            events: "send push 0 write\n\
                     deliver 1 lamp\n\
                     ask push 1.1.9 010203040506\n\
                     deliver 2 lamp\n\
                     deliver 3 push\n\
                     deliver 3 push\n\
                     send push 0 write\n\
                     deliver 4 lamp\n",
            report: &[
                (
                    "1 air 1 number 1\n\
                     2 stale kept 500 got 1\n\
                     3 air 2 number 2\n\
                     4 answered challenge 010203040506 reply 3\n\
                     5 synced number 1 kept 500 next 501\n\
                     6 no-pending\n\
                     7 air 4 number 501\n\
                     8 acted number 501 lane run:1.1.7 GroupValue_Write object 0 value 01\n",
                    0,
                ),
                (
                    "node push running journal 0 reserved 564\n\
                     object 0 01\n\
                     lane run:1.1.7 kept 0\n\
                     lane tool:1.1.9:1.1.9 kept 1\n\
                     image a50000000000000000000000000000000000000000000000000000\
                     a500000000000040a502000000000001a500000000000234",
                    259,
                ),
                (
                    "node lamp running journal 1 reserved 64\n\
                     object 0 01\n\
                     lane run:1.1.7 kept 501\n\
                     lane tool:1.1.9:1.1.7 kept 0\n\
                     lane tool:1.1.9:1.1.9 kept 0\n\
                     image a500000000000000000000000000000000000001f4000000000000000000000000\
                     a500000000000040a5010000000001f5",
                    273,
                ),
                ("events 8 telegrams 4\n", 0),
            ],
        },
    ];
    for row in &rows {
        let mut played = None;
        let script = row.script(alloc)?;
        let (out, status) = replayed(alloc, &script, 10_000, &mut played)?;
        assert_eq!(rt; out.bytes(), row.report(alloc)?.as_bytes());
        assert_eq!(rt; status, Status::Done);
        assert!(rt; played.is_some());
    }
    Ok(())
}

#[test]
fn a_refused_script_is_told_alone(rt: HostRuntime) -> Result<(), Fail> {
    let rows = [
        ("knx-script\n", "refused script line 1 words\n"),
        (
            "knx-script 1\nnode a 0.0.0 1\n",
            "refused script line 2 address\n",
        ),
        (
            "knx-script 1\nknx-script 1\n",
            "refused script line 2 order\n",
        ),
        (
            "knx-script 1\nnode a 1.1.1 1\nnode a 1.1.2 1\n",
            "refused script line 3 twice\n",
        ),
    ];
    for (script, report) in rows {
        let mut played = None;
        let (out, status) = replayed(rt.alloc(), script, 100, &mut played)?;
        assert_eq!(rt; out.bytes(), report.as_bytes());
        assert_eq!(rt; status, Status::Refused);
        assert!(rt; played.is_none());
    }
    Ok(())
}

#[test]
fn a_full_sink_has_the_front_of_a_replay(rt: HostRuntime) -> Result<(), Fail> {
    let alloc = rt.alloc();
    let mut script = String::from_str(alloc, PLAIN)?;
    script.push_str("send push 0 write\ndeliver 1 lamp\ndeliver 1 lamp\nlose 1\ndeliver 1 lamp\n")?;
    let mut played = None;
    let (out, status) = replayed(alloc, &script, 100, &mut played)?;
    let front = b"1 air 1 number 1\n\
        2 acted number 1 lane run:1.1.7 GroupValue_Write object 0 value 01\n\
        3 stale kept 1 g";
    assert_eq!(rt; out.bytes(), front.as_slice());
    assert_eq!(rt; status, Status::WriteFault);
    assert!(rt; played.is_none());
    Ok(())
}

// A script of one event, which is on of the last node, and a long one, which is the same at each run.
#[test]
fn a_made_script_is_summed_up(rt: HostRuntime) -> Result<(), Fail> {
    let (out, status) = printed(&rt, &["make", "7", "1"], 1000)?;
    let summary = b"make 7 1\n\
        telegrams 0\n\
        acted 0\n\
        answered 0\n\
        synced 0\n\
        refused 0\n\
        ignored 0\n\
        gone 0\n\
        off 0\n\
        cut 0\n\
        node n0 journal 0 reserved 0\n\
        node n1 journal 0 reserved 0\n\
        node n2 journal 0 reserved 0\n\
        node n3 journal 0 reserved 0\n";
    assert_eq!(rt; out.bytes(), summary.as_slice());
    assert_eq!(rt; status, Status::Done);
    let (first, _) = printed(&rt, &["make", "7", "100000"], 1000)?;
    let (second, status) = printed(&rt, &["make", "7", "100000"], 1000)?;
    assert_eq!(rt; status, Status::Done);
    assert!(rt; first.bytes().starts_with(b"make 7 100000\n"));
    assert_eq!(rt; first.bytes(), second.bytes());
    Ok(())
}

// Numbers and counts that are none, or past their limits.
#[test]
fn words_of_a_made_script_are_in_their_ranges(rt: HostRuntime) -> Result<(), Fail> {
    for texts in [
        ["make", "7", "0"],
        ["make", "7", "100001"],
        ["make", "4294967296", "1"],
        ["make", "07", "1"],
        ["make", "7", ""],
    ] {
        let (_, status) = printed(&rt, &texts, 1000)?;
        assert_eq!(rt; status, Status::Usage);
    }
    Ok(())
}
