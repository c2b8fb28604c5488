use crate::{FileFault, read_all};
use knx_base::MemFiles;
use std::test::Fail;

#[test]
fn a_file_is_read_whole_up_to_the_limit(rt: HostRuntime) -> Result<(), Fail> {
    let mut files = MemFiles::new(rt.alloc());
    let octets = [7; 1000];
    files.add("name", &octets)?;
    let found = read_all(rt.alloc(), &mut files, "name", 1000)
        .ok()
        .ok_or("a fault")?;
    let found = found.ok_or("too long")?;
    assert_eq!(rt; found.as_slice(), octets.as_slice());
    let found = read_all(rt.alloc(), &mut files, "name", 999)
        .ok()
        .ok_or("a fault")?;
    assert_eq!(rt; found.is_none(), true);
    Ok(())
}

#[test]
fn a_failure_is_a_read_fault(rt: HostRuntime) -> Result<(), Fail> {
    let mut files = MemFiles::new(rt.alloc());
    files.add("name", b"octets")?;
    files.fail_at(2)?;
    assert_eq!(rt;
        read_all(rt.alloc(), &mut files, "name", 8).err(),
        Some(FileFault::ReadFault)
    );
    Ok(())
}
