ghost use Rattle.std.specs.Prelude.{◌<◌, ◌≡◌, ◌≤◌, true, length, IfOk};
ghost use Rattle.seq_store.specs.Store.{store_state, lanes_of};

use crate::{DrawFault, SeqStore, StoreFault, format_store, store_size, stored_value};
use knx_base::Number48;
use nvm_model::trial::FailingNvm;
use nvm_model::{Nvm, NvmFault, SimNvm};
use std::alloc::Global;
use std::test::Fail;

const LANES: usize = 2;

const SIZE: usize = 310;

// A record of this index and a number below 256.
fn record(index: u8, number: u8) -> [u8; 8] {
    [0xa5, index, 0, 0, 0, 0, 0, number]
}

// Formatted with zeros; then the mark of the second lane is raised to 7, and the reservation to 163.
fn raised() -> [u8; SIZE] {
    let mut image = [0; SIZE];
    image[0] = 0xa5;
    image[27..35].copy_from_slice(&record(2, 7));
    image[35..43].copy_from_slice(&record(0, 163));
    image
}

// Formatted with zeros; then the mark of the first lane is raised to 9, that of the second to each of 1 to 15, and the
// reservation to 64, for which no record is left.
fn changed() -> [u8; SIZE] {
    let mut image = [0; SIZE];
    image[0] = 0xa5;
    image[27..35].copy_from_slice(&record(1, 9));
    for k in 1..16 {
        image[27 + 8 * k..35 + 8 * k].copy_from_slice(&record(2, k as u8));
    }
    // gate and generation of the second bank, its three numbers, and no record
    image[155] = 0xa5;
    image[163] = 1;
    image[169] = 64;
    image[175] = 9;
    image[181] = 15;
    image
}

fn number(value: u64) -> Result<Number48, Fail> {
    Ok(Number48::new(value).ok_or("too great")?)
}

// Formats a memory of two lanes with zeros, and starts a store over it.
fn new_store<M: Nvm + Drop>(alloc: Global, mut memory: M) -> Result<SeqStore<M>, Fail>
    requires size { length (M.state memory).octets ≡ 310 }
    ensures lanes { IfOk result (λ store. lanes_of (store_state store) ≡ 2) }
{
    let zero = number(0)?;
    if format_store(&mut memory, zero, &[zero; LANES]).is_err() {
        return Err(Fail::from("not formatted"));
    }
    match SeqStore::start(alloc, LANES, memory) {
        Ok(store) => Ok(store),
        Err(_) => Err(Fail::from("not started")),
    }
}

#[test]
fn a_memory_of_zeros_is_unformatted(rt: HostRuntime) -> Result<(), Fail> {
    let memory = SimNvm::new(rt.alloc(), SIZE)?;
    match SeqStore::start(rt.alloc(), LANES, memory) {
        Ok(_) => Err(Fail::from("started")),
        Err(refused) => {
            assert_eq!(rt; refused.fault, StoreFault::Unformatted(0));
            Ok(())
        }
    }
}

// Which of 130 draws fails, if any. They give the numbers from 1 on.
fn failing_draw(store: &mut SeqStore<SimNvm>) -> Result<Option<u64>, Fail> {
    for count in 1..=130 {
        if !store.is_sound() {
            return Err(Fail::from("not sound"));
        }
        match store.draw() {
            Ok(number) if number.get() == count => {}
            Ok(_) => return Err(Fail::from("another number")),
            Err(_) => return Ok(Some(count)),
        }
    }
    Ok(None)
}

// Each row: the write that fails, and the draw that makes it.
#[test]
fn of_130_draws_the_1st_65th_and_129th_write_twice(rt: HostRuntime) -> Result<(), Fail> {
    let rows = [
        (1, Some(1)),
        (2, Some(1)),
        (3, Some(65)),
        (4, Some(65)),
        (5, Some(129)),
        (6, Some(129)),
        (7, None),
    ];
    for (write, want) in rows {
        let mut store = new_store(rt.alloc(), SimNvm::new(rt.alloc(), SIZE)?)?;
        store.arm_fail(write, 0xff);
        assert_eq!(rt; failing_draw(&mut store)?, want, "write {write}");
        assert_eq!(rt; store.is_sound(), want.is_none());
    }
    Ok(())
}

// The next number of a store that is started over this memory once power has returned.
fn next_after_power(alloc: Global, mut memory: SimNvm) -> Result<u64, Fail> {
    memory.power_on();
    if memory.size() != SIZE {
        return Err(Fail::from("another size"));
    }
    match SeqStore::start(alloc, LANES, memory) {
        Ok(store) => Ok(store.next()),
        Err(_) => Err(Fail::from("not started")),
    }
}

// Each row: the write of the 65th draw that is cut, the octet that it leaves, and the next number after power returns.
#[test]
fn a_cut_leaves_the_old_reservation_or_the_new(rt: HostRuntime) -> Result<(), Fail> {
    let rows = [(3, 0xa5, 65), (4, 0x00, 65), (4, 0xa5, 129), (4, 0xff, 65)];
    for (write, torn, want) in rows {
        let mut store = new_store(rt.alloc(), SimNvm::new(rt.alloc(), SIZE)?)?;
        store.arm_cut(write, torn);
        assert_eq!(rt; failing_draw(&mut store)?, Some(65));
        let next = next_after_power(rt.alloc(), store.into_memory())?;
        assert_eq!(rt; next, want, "write {write}, torn {torn}");
    }
    Ok(())
}

// Raises the mark of the second lane to 7 and the next number to 100, and draws it.
fn raise_and_draw<M: Nvm>(store: &mut SeqStore<M>) -> Result<u64, Fail>
    requires lanes { lanes_of (store_state store.old) ≡ 2 }
    ensures lanes { lanes_of (store_state store.new) ≡ 2 }
{
    let seven = number(7)?;
    if !store.is_sound() || store.mark(1) >= seven {
        return Err(Fail::from("not to be raised"));
    }
    if store.raise(1, seven).is_err() {
        return Err(Fail::from("not raised"));
    }
    store.raise_next(number(99)?);
    if !store.is_sound() {
        return Err(Fail::from("not sound"));
    }
    match store.draw() {
        Ok(number) => Ok(number.get()),
        Err(_) => Err(Fail::from("not drawn")),
    }
}

#[test]
fn a_raise_takes_the_next_record(rt: HostRuntime) -> Result<(), Fail> {
    let mut store = new_store(rt.alloc(), SimNvm::new(rt.alloc(), SIZE)?)?;
    assert_eq!(rt; raise_and_draw(&mut store)?, 100);
    assert_eq!(rt; store.next(), 101);
    assert_eq!(rt; store.mark(1), number(7)?);
    let image = raised();
    assert_eq!(rt; store.memory().image(), image.as_slice());
    for (value, number) in [(0, 163), (1, 0), (2, 7)] {
        assert_eq!(rt; stored_value(&image, LANES, value), Number48::new(number));
    }
    assert_eq!(rt; stored_value(&[0; SIZE], LANES, 2), None);
    Ok(())
}

// Raises the mark of a lane; whether it answered Ok.
fn raise_to(store: &mut SeqStore<SimNvm>, lane: usize, mark: u64) -> Result<bool, Fail>
    requires lanes { lanes_of (store_state store.old) ≡ 2 }
    requires in_range { lane < 2 }
    ensures lanes { lanes_of (store_state store.new) ≡ 2 }
{
    let mark = number(mark)?;
    if !store.is_sound() || store.mark(lane) >= mark {
        return Err(Fail::from("not to be raised"));
    }
    Ok(store.raise(lane, mark).is_ok())
}

// Raises the mark of the second lane to each number from 1 to this one.
fn raise_each(store: &mut SeqStore<SimNvm>, last: u64) -> Result<(), Fail>
    requires lanes { lanes_of (store_state store.old) ≡ 2 }
    ensures lanes { lanes_of (store_state store.new) ≡ 2 }
{
    for mark in 1..=last {
        if !raise_to(store, 1, mark)? {
            return Err(Fail::from("not raised"));
        }
    }
    Ok(())
}

#[test]
fn the_17th_raise_changes_banks(rt: HostRuntime) -> Result<(), Fail> {
    let mut store = new_store(rt.alloc(), SimNvm::new(rt.alloc(), SIZE)?)?;
    assert!(rt; raise_to(&mut store, 0, 9)?);
    raise_each(&mut store, 15)?;
    if !store.is_sound() {
        return Err(Fail::from("not sound"));
    }
    assert_eq!(rt; store.draw(), Ok(number(1)?));
    let image = changed();
    assert_eq!(rt; store.memory().image(), image.as_slice());
    for (value, number) in [(0, 64), (1, 9), (2, 15)] {
        assert_eq!(rt; stored_value(&image, LANES, value), Number48::new(number));
    }
    Ok(())
}

// Each row: how many raises are made, the write of the next one that is cut, the octet that it leaves, and the mark
// after power returns. The 17th raise writes the second bank, and opens it; the 34th shuts the first bank, writes it,
// and opens it.
#[test]
fn a_cut_leaves_the_old_bank_or_the_new(rt: HostRuntime) -> Result<(), Fail> {
    let rows = [
        (16, 1, 0x00, 16),
        (16, 1, 0xa5, 16),
        (16, 1, 0xff, 16),
        (16, 2, 0x00, 16),
        (16, 2, 0xa5, 17),
        (16, 2, 0xff, 16),
        (33, 1, 0x00, 33),
        (33, 1, 0xa5, 33),
        (33, 1, 0xff, 33),
        (33, 2, 0x00, 33),
        (33, 2, 0xa5, 33),
        (33, 2, 0xff, 33),
        (33, 3, 0x00, 33),
        (33, 3, 0xa5, 34),
        (33, 3, 0xff, 33),
    ];
    for (raises, write, torn, want) in rows {
        if write == 0 || raises >= 100 {
            return Err(Fail::from("a row of the table"));
        }
        let mut store = new_store(rt.alloc(), SimNvm::new(rt.alloc(), SIZE)?)?;
        raise_each(&mut store, raises)?;
        store.arm_cut(write, torn);
        assert!(rt; !raise_to(&mut store, 1, raises + 1)?);
        let memory = store.into_memory();
        if memory.size() != SIZE {
            return Err(Fail::from("another size"));
        }
        assert_eq!(rt;
            stored_value(memory.image(), LANES, 2),
            Number48::new(want),
            "raises {raises}, write {write}, torn {torn}"
        );
        assert_eq!(rt; stored_value(memory.image(), LANES, 0), Number48::new(0));
    }
    Ok(())
}

// A memory that tells no plan. Its calls are the six that format it, the three of a start, and then those of the draw.
#[test]
fn a_call_that_fails_is_told(rt: HostRuntime) -> Result<(), Fail> {
    let mut store = new_store(rt.alloc(), FailingNvm::new(rt.alloc(), SIZE, 0, 0)?)?;
    assert_eq!(rt; raise_and_draw(&mut store)?, 100);
    assert_eq!(rt; store.next(), 101);
    assert_eq!(rt; store.mark(1), number(7)?);
    assert_eq!(rt; store.memory().size(), SIZE);
    let memory = store.into_memory();
    let image = raised();
    assert_eq!(rt; memory.image(), image.as_slice());
    let mut store = new_store(rt.alloc(), FailingNvm::new(rt.alloc(), SIZE, 11, 0xff)?)?;
    if !store.is_sound() {
        return Err(Fail::from("not sound"));
    }
    assert_eq!(rt; store.draw(), Err(DrawFault::Memory(NvmFault::Failed)));
    assert!(rt; !store.is_sound());
    match SeqStore::start(
        rt.alloc(),
        LANES,
        FailingNvm::new(rt.alloc(), SIZE, 1, 0xff)?,
    ) {
        Ok(_) => Err(Fail::from("started")),
        Err(refused) => {
            assert_eq!(rt; refused.fault, StoreFault::Memory(NvmFault::Failed));
            Ok(())
        }
    }
}

#[test]
fn the_last_number_is_2_to_the_48_less_1(rt: HostRuntime) -> Result<(), Fail> {
    let mut store = new_store(rt.alloc(), SimNvm::new(rt.alloc(), SIZE)?)?;
    store.raise_next(number(0xffff_ffff_fffe)?);
    for want in [Ok(0xffff_ffff_ffff), Err(DrawFault::Exhausted)] {
        if !store.is_sound() {
            return Err(Fail::from("not sound"));
        }
        assert_eq!(rt; store.draw().map(|number| number.get()), want);
    }
    assert!(rt; store.is_sound());
    Ok(())
}

// The most lanes that a memory may have.
#[test]
fn a_store_of_64_lanes_keeps_the_last_mark(rt: HostRuntime) -> Result<(), Fail> {
    let zero = number(0)?;
    let nine = number(9)?;
    for (lanes, size) in [(1, 298), (2, 310), (64, 1054)] {
        assert_eq!(rt; store_size(lanes), size);
    }
    let mut memory = SimNvm::new(rt.alloc(), store_size(64))?;
    assert!(rt; format_store(&mut memory, zero, &[zero; 64]).is_ok());
    let Ok(mut store) = SeqStore::start(rt.alloc(), 64, memory) else {
        return Err(Fail::from("not started"));
    };
    if !store.is_sound() || store.mark(63) >= nine {
        return Err(Fail::from("not to be raised"));
    }
    assert_eq!(rt; store.raise(63, nine), Ok(()));
    let Ok(store) = SeqStore::start(rt.alloc(), 64, store.into_memory()) else {
        return Err(Fail::from("not started again"));
    };
    for (lane, mark) in [(0, zero), (62, zero), (63, nine)] {
        assert_eq!(rt; store.mark(lane), mark, "lane {lane}");
    }
    assert_eq!(rt; store.next(), 1);
    Ok(())
}
