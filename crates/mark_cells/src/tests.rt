ghost use Rattle.std.specs.Prelude.{◌≡◌, ◌≤◌, length};

use crate::{CellFault, cell_reading, format_cell, raise_cell, read_cell};
use knx_base::Number48;
use nvm_model::trial::FailingNvm;
use nvm_model::{Nvm, NvmFault, SimNvm};
use std::test::Fail;

const SIZE: usize = 14;

fn number(value: u64) -> Result<Number48, Fail> {
    Ok(Number48::new(value).ok_or("too great")?)
}

// Raises the cell at 0, which has to read a lower number.
fn raise<M: Nvm>(memory: &mut M, new: u64) -> Result<bool, Fail>
    requires inside { 14 ≤ length (M.state memory.old).octets }
    ensures size { length (M.state memory.new).octets ≡ length (M.state memory.old).octets }
{
    let new = number(new)?;
    let Ok(old) = read_cell(memory, 0) else {
        return Ok(false);
    };
    if old.get() < new.get() {
        return Ok(raise_cell(memory, 0, new).is_ok());
    }
    Ok(false)
}

// Each row: what the cell was raised to since it was formatted with 5, what it is raised to then, the write that is
// cut, and what it reads after power returns, for the torn octets 00, a5 and ff.
#[test]
fn a_raise_that_is_cut_leaves_the_old_number_or_the_new(rt: HostRuntime) -> Result<(), Fail> {
    let rows = [
        (None, 9, 1, [5, 5, 5]),
        (None, 9, 2, [5, 9, 5]),
        (Some(9), 12, 1, [9, 9, 9]),
        (Some(9), 12, 2, [9, 9, 9]),
        (Some(9), 12, 3, [9, 12, 9]),
    ];
    for (before, new, write, want) in rows {
        for (torn, want) in [(0x00, want[0]), (0xa5, want[1]), (0xff, want[2])] {
            let mut memory = SimNvm::new(rt.alloc(), SIZE)?;
            assert_eq!(rt; format_cell(&mut memory, 0, number(5)?), Ok(()));
            if let Some(before) = before {
                assert!(rt; raise(&mut memory, before)?);
            }
            memory.arm_cut(write, torn);
            assert!(rt; !raise(&mut memory, new)?);
            memory.power_on();
            assert_eq!(rt;
                read_cell(&mut memory, 0),
                Ok(number(want)?),
                "{new} at {write}, torn {torn}"
            );
        }
    }
    Ok(())
}

#[test]
fn a_raise_writes_the_copy_that_is_not_current(rt: HostRuntime) -> Result<(), Fail> {
    let mut memory = SimNvm::new(rt.alloc(), SIZE)?;
    assert_eq!(rt; format_cell(&mut memory, 0, number(0)?), Ok(()));
    assert_eq!(rt;
        memory.image(),
        [0xa5, 0, 0, 0, 0, 0, 0, 0, 0, 0, 0, 0, 0, 0].as_slice()
    );
    assert!(rt; raise(&mut memory, 64)?);
    assert_eq!(rt;
        memory.image(),
        [0xa5, 0, 0, 0, 0, 0, 0, 0xa5, 0, 0, 0, 0, 0, 0x40].as_slice()
    );
    Ok(())
}

#[test]
fn fourteen_zero_octets_are_unformatted(rt: HostRuntime) -> Result<(), Fail> {
    let mut memory = SimNvm::new(rt.alloc(), SIZE)?;
    assert_eq!(rt; read_cell(&mut memory, 0), Err(CellFault::Unformatted));
    assert_eq!(rt; cell_reading(&[0; 14]), None);
    Ok(())
}

// Of the calls that format a cell, read it and raise it, one fails.
#[test]
fn a_call_that_fails_is_told(rt: HostRuntime) -> Result<(), Fail> {
    let mut memory = FailingNvm::new(rt.alloc(), SIZE, 2, 0xff)?;
    assert_eq!(rt; format_cell(&mut memory, 0, number(5)?), Ok(()));
    assert_eq!(rt;
        read_cell(&mut memory, 0),
        Err(CellFault::Memory(NvmFault::Failed))
    );
    assert!(rt; raise(&mut memory, 9)?);
    assert_eq!(rt; read_cell(&mut memory, 0), Ok(number(9)?));
    Ok(())
}
