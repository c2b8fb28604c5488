use crate::trial::FailingNvm;
use crate::{Nvm, NvmFault, Piece, SimNvm, write_gated, write_in_turn};
use std::test::Fail;

#[test]
fn an_armed_cut_strikes_one_write_and_takes_power(rt: HostRuntime) -> Result<(), Fail> {
    let mut memory = SimNvm::new(rt.alloc(), 3)?;
    memory.arm_cut(2, 0xa5);
    memory.arm_fail(2, 0x07);
    assert_eq!(rt; memory.write(0, &[1]), Ok(()));
    memory.power_off();
    assert_eq!(rt; memory.write(0, &[2]), Err(NvmFault::Cut));
    memory.power_on();
    assert_eq!(rt; memory.write(1, &[3, 4]), Err(NvmFault::Cut));
    assert_eq!(rt; memory.read(1, &mut [0]), Err(NvmFault::Cut));
    memory.power_on();
    assert_eq!(rt; memory.write(2, &[5]), Ok(()));
    assert_eq!(rt; memory.image(), [1, 0xa5, 5].as_slice());
    Ok(())
}

#[test]
fn an_armed_fault_leaves_power_on(rt: HostRuntime) -> Result<(), Fail> {
    let mut memory = SimNvm::new(rt.alloc(), 2)?;
    memory.arm_fail(1, 0x07);
    let pieces = [Piece { at: 1, bytes: &[2] }];
    let first = Piece { at: 0, bytes: &[1] };
    assert_eq!(rt;
        write_in_turn(&mut memory, first, &pieces),
        Err(NvmFault::Failed)
    );
    assert_eq!(rt; memory.image(), [7, 0].as_slice());
    assert_eq!(rt; write_in_turn(&mut memory, first, &pieces), Ok(()));
    assert_eq!(rt; memory.image(), [1, 2].as_slice());
    Ok(())
}

#[test]
fn a_torn_gate_is_open_over_the_whole_body_or_none(rt: HostRuntime) -> Result<(), Fail> {
    for (call, want) in [(1, [0, 0xa5, 0xa5]), (2, [0xa5, 7, 8]), (3, [0xa5, 7, 8])] {
        let mut memory = FailingNvm::new(rt.alloc(), 3, call, 0xa5)?;
        assert_eq!(rt;
            write_gated(&mut memory, 0, false, &[7, 8]).is_ok(),
            call == 3
        );
        assert_eq!(rt; memory.image(), want.as_slice(), "at {call}");
    }
    Ok(())
}

#[test]
fn an_open_gate_is_shut_first(rt: HostRuntime) -> Result<(), Fail> {
    let mut memory = SimNvm::new(rt.alloc(), 2)?;
    assert_eq!(rt; write_gated(&mut memory, 0, false, &[7]), Ok(()));
    memory.arm_cut(2, 0xa5);
    assert_eq!(rt; write_gated(&mut memory, 0, true, &[8]), Err(NvmFault::Cut));
    assert_eq!(rt; memory.image(), [0, 0xa5].as_slice());
    Ok(())
}
