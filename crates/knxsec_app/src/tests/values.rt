ghost use Rattle.std.specs.Prelude.{◌≡◌, ◌∷◌, [], map, codes, IfOk};
ghost use Rattle.std.specs.String.{string_bytes};

use super::audits::TABLES;
use super::printed;
use crate::{Status, run};
use knx_base::{MemFiles, MemSink, NoMemory};
use std::alloc::Global;
use std::test::Fail;

/// The tables, the types, the recording and the report of the folder `examples`: the telegrams were sealed by another
/// program.
const EXAMPLE_TABLES: &str =
    "# The groups of the lamp, the thermostat and the sensor, with their keys and who may send.
group 1/0/1 01010101010101010101010101010101 conf
group 1/0/3 03030303030303030303030303030303 conf
group 1/0/4 04040404040404040404040404040404 conf
role 1/0/1 1.1.10 command
role 1/0/3 1.1.12 command
role 1/0/4 1.1.30 observe
";

const EXAMPLE_TYPES: &str = "# What the values of the groups are: on or off, degrees, percent.
type 1/0/1 1.001
type 1/0/3 9.001
type 1/0/4 5.001
";

const EXAMPLE_FRAMES: &str = "# the push button 1.1.10 switches the lamp on
2900bce0110a08010e03f1100000000003e94011881e6368
# the thermostat 1.1.12 sends 21.00 degrees
29003ce0110c08031003f1100000000003e9917cbbddf7fd35e8
# the sensor 1.1.30 reads
2900bce0111e08040e03f11000000000004e987cd3eac4b1
";

const EXAMPLE_REPORT: &str = "1 1.1.10 > 1/0/1 accepted number 1001 GroupValue_Write 0081 = on
2 1.1.12 > 1/0/3 accepted number 1001 GroupValue_Write 00800c1a = 21.00
3 1.1.30 > 1/0/4 accepted number 78 GroupValue_Read 0000
total 3 accepted 3 sync 0 alarms 0
";

/// From 1.1.7 to the group 1/2/3 under number 5, a GroupValue_Write of 1.
const WRITE: &str = "2900bce011070a030e03f1100000000000050d5858028267\n";

// Texts of values, as this profile has them, and their APDUs.
#[test]
fn texts_are_encoded_or_of_no_value(rt: HostRuntime) -> Result<(), Fail> {
    for (dpt, text, report, ended) in [
        ("9.001", "21.00", "00800c1a\n", Status::Done),
        ("9.001", "-1.00", "0080879c\n", Status::Done),
        ("9.001", "670760.96", "no-value\n", Status::Alarm),
        ("5.001", "50.19", "008080\n", Status::Done),
        ("1.001", "on", "0081\n", Status::Done),
        ("11.001", "2024-02-30", "no-value\n", Status::Alarm),
        (
            "16.000",
            "\"\"",
            "00800000000000000000000000000000\n",
            Status::Done,
        ),
    ] {
        let (out, status) = printed(&rt, &["encode", dpt, text], 100)?;
        assert_eq!(rt; out.bytes(), report.as_bytes());
        assert_eq!(rt; status, ended);
    }
    let (_, status) = printed(&rt, &["encode", "9.002", "21.00"], 1000)?;
    assert_eq!(rt; status, Status::Usage);
    Ok(())
}

fn values_words(alloc: Global) -> Result<Vec<String>, NoMemory>
    ensures { IfOk result (λ words. map string_bytes words.items ≡ codes "audit-values" ∷ codes "tables"
        ∷ codes "types" ∷ codes "frames" ∷ []) }
{
    let mut words = Vec::new(alloc);
    words.push(String::from_str(alloc, "audit-values")?)?;
    words.push(String::from_str(alloc, "tables")?)?;
    words.push(String::from_str(alloc, "types")?)?;
    words.push(String::from_str(alloc, "frames")?)?;
    Ok(words)
}

// What an audit with values prints of these files, and its status.
fn audited(
    alloc: Global,
    tables: &str,
    types: &str,
    frames: &str,
) -> Result<(MemSink, Status), Fail> {
    if tables.len() > 1000 || types.len() > 1000 || frames.len() > 5000 {
        return Err(Fail::from("a short text"));
    }
    let words = values_words(alloc)?;
    let mut files = MemFiles::new(alloc);
    files.add("tables", tables.as_bytes())?;
    files.add("types", types.as_bytes())?;
    files.add("frames", frames.as_bytes())?;
    let mut out = MemSink::new(alloc, 1000)?;
    let status = run(alloc, &words, &mut files, &mut out, &mut None);
    Ok((out, status))
}

#[test]
fn values_stand_behind_writes_of_groups_with_a_type(rt: HostRuntime) -> Result<(), Fail> {
    let rows = [
        (
            EXAMPLE_TABLES,
            EXAMPLE_TYPES,
            EXAMPLE_FRAMES,
            EXAMPLE_REPORT,
            Status::Done,
        ),
        (
            TABLES,
            "type 1/2/3 1.001\n",
            WRITE,
            "1 1.1.7 > 1/2/3 accepted number 5 GroupValue_Write 0081 = on\n\
             total 1 accepted 1 sync 0 alarms 0\n",
            Status::Done,
        ),
        (
            TABLES,
            "type 1/2/3 5.010\n",
            WRITE,
            "1 1.1.7 > 1/2/3 accepted number 5 GroupValue_Write 0081 = bad-value\n\
             total 1 accepted 1 sync 0 alarms 0\n",
            Status::Done,
        ),
        (
            TABLES,
            "type 1/2/4 1.001\n",
            WRITE,
            "1 1.1.7 > 1/2/3 accepted number 5 GroupValue_Write 0081\n\
             total 1 accepted 1 sync 0 alarms 0\n",
            Status::Done,
        ),
        (
            TABLES,
            "type 1/2/3 1.001\ntype 1/515 9.001\n",
            WRITE,
            "refused types line 2 twice\n",
            Status::Refused,
        ),
        (
            "group",
            "type",
            WRITE,
            "refused tables line 1 words\n",
            Status::Refused,
        ),
    ];
    for (tables, types, frames, report, ended) in rows {
        let (out, status) = audited(rt.alloc(), tables, types, frames)?;
        assert_eq!(rt; out.bytes(), report.as_bytes());
        assert_eq!(rt; status, ended);
    }
    Ok(())
}
