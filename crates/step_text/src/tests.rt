use crate::{StepOutcome, print_image, print_kept, print_step_line, print_total, print_value};
use group_objects::Value;
use judge_rules::Verdict;
use key_tables::Lane;
use knx_base::{Failed, IndAddr, MemSink, Number48};
use node_core::Act;
use plain_apdu::Service;
use script_text::Marks;
use std::alloc::Global;
use std::test::Fail;

const PUSH: IndAddr = IndAddr(0x1107);

const LAMP: IndAddr = IndAddr(0x1109);

fn number(value: u64) -> Result<Number48, Fail> {
    Ok(Number48::new(value).ok_or("a number of 48 bits")?)
}

fn bits(value: u8) -> Result<Value, Fail> {
    Ok(Value::bits(value).ok_or("six bits")?)
}

fn acted(act: Act, reply: Option<u32>) -> Result<StepOutcome, Fail> {
    Ok(StepOutcome::Acted {
        number: number(5)?,
        lane: Lane::Run(PUSH),
        act,
        reply,
    })
}

fn started(alloc: Global) -> Result<StepOutcome, Fail> {
    let mut numbers = Vec::new(alloc);
    numbers.push(number(500)?)?;
    numbers.push(number(0)?)?;
    Ok(StepOutcome::On {
        next: 65,
        marks: Marks::new(numbers),
    })
}

fn line(alloc: Global, outcome: &StepOutcome) -> Result<MemSink, Fail> {
    let mut out = MemSink::new(alloc, 1000)?;
    let lanes = [Lane::Run(PUSH), Lane::Tool(LAMP, PUSH)];
    print_step_line(7, &lanes, outcome, &mut out).map_err(|_| Fail::from("no room"))?;
    Ok(out)
}

#[test]
fn each_outcome_has_its_line(rt: HostRuntime) -> Result<(), Fail> {
    let rows = [
        (StepOutcome::NoObject, "7 no-object\n"),
        (
            StepOutcome::Air {
                telegram: 3,
                number: Some(number(281_474_976_710_655)?),
            },
            "7 air 3 number 281474976710655\n",
        ),
        (
            StepOutcome::Air {
                telegram: 4,
                number: None,
            },
            "7 air 4\n",
        ),
        (
            StepOutcome::Refused(Verdict::Stale {
                kept: number(500)?,
                got: number(1)?,
            }),
            "7 stale kept 500 got 1\n",
        ),
        (
            acted(
                Act::Write {
                    object: 0,
                    value: bits(1)?,
                },
                None,
            )?,
            "7 acted number 5 lane run:1.1.7 GroupValue_Write object 0 value 01\n",
        ),
        (
            acted(
                Act::Read {
                    object: 63,
                    reply: Some(number(9)?),
                },
                Some(12),
            )?,
            "7 acted number 5 lane run:1.1.7 GroupValue_Read object 63 reply 12\n",
        ),
        (
            acted(
                Act::Tool {
                    service: Service::DeviceDescriptorRead,
                },
                None,
            )?,
            "7 acted number 5 lane run:1.1.7 DeviceDescriptor_Read\n",
        ),
        (
            StepOutcome::Answered {
                challenge: [1, 2, 3, 4, 5, 6],
                reply: None,
            },
            "7 answered challenge 010203040506 reply none\n",
        ),
        (
            StepOutcome::Synced {
                number: number(1)?,
                kept: number(500)?,
                next: 501,
            },
            "7 synced number 1 kept 500 next 501\n",
        ),
        (
            started(rt.alloc())?,
            "7 on next 65 run:1.1.7=500 tool:1.1.9:1.1.7=0\n",
        ),
    ];
    for (outcome, text) in &rows {
        let out = line(rt.alloc(), outcome)?;
        assert_eq!(rt; out.bytes(), text.as_bytes());
    }
    Ok(())
}

fn print_end(image: &[u8], out: &mut MemSink) -> Result<(), Failed> {
    if let Some(value) = Value::octets(&[0x0c, 0x1a]) {
        print_value(1, &value, out)?;
    }
    if let Some(kept) = Number48::new(1) {
        print_kept(Lane::Tool(LAMP, PUSH), kept, out)?;
    }
    print_image(image, out)?;
    print_total(5, 1, out)
}

#[test]
fn the_end_is_told_line_by_line(rt: HostRuntime) -> Result<(), Fail> {
    let image = [0xa5; 300];
    let mut out = MemSink::new(rt.alloc(), 1000)?;
    print_end(&image, &mut out).map_err(|_| Fail::from("no room"))?;
    let told = out.bytes();
    let front = b"object 1 0c1a\nlane tool:1.1.9:1.1.7 kept 1\nimage a5a5";
    assert!(rt; told.starts_with(front));
    assert!(rt; told.ends_with(b"a5a5\nevents 5 telegrams 1\n"));
    assert_eq!(rt; told.len(), front.len() + 596 + 22);
    Ok(())
}
