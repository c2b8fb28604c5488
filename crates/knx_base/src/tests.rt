use crate::{
    CountSink, Failed, Files, LineBuf, MemFiles, MemSink, Number48, Sink, SureFiles, print_text,
};
use std::test::Fail;

#[test]
fn a_number_comes_back_from_its_octets(rt: HostRuntime) -> Result<(), Fail> {
    let number = Number48::new(0x0102_0304_0506).ok_or("too great")?;
    assert_eq!(rt; number.to_bytes(), [1, 2, 3, 4, 5, 6]);
    assert_eq!(rt; Number48::from_bytes([0, 0, 0, 0, 1, 0]).get(), 256);
    Ok(())
}

#[test]
fn a_sink_in_memory_keeps_what_fits(rt: HostRuntime) -> Result<(), Fail> {
    let mut out = MemSink::new(rt.alloc(), 3)?;
    assert_eq!(rt; print_text(b"abcdef", &mut out), Err(Failed));
    assert_eq!(rt; out.bytes(), b"abc".as_slice());
    Ok(())
}

#[test]
fn the_armed_write_alone_fails(rt: HostRuntime) -> Result<(), Fail> {
    let mut out = MemSink::new(rt.alloc(), 8)?;
    out.fail_at(2)?;
    assert_eq!(rt; out.write(b"a"), Ok(1));
    assert_eq!(rt; out.write(b"b"), Err(Failed));
    assert_eq!(rt; out.write(b"c"), Ok(1));
    assert_eq!(rt; out.bytes(), b"ac".as_slice());
    Ok(())
}

#[test]
fn a_file_in_memory_is_read_to_its_end(rt: HostRuntime) -> Result<(), Fail> {
    let mut files = MemFiles::new(rt.alloc());
    files.add("name", b"octets")?;
    let mut buffer = [0; 4];
    assert_eq!(rt; files.open("name"), Ok(()));
    assert_eq!(rt; files.read(&mut buffer), Ok(4));
    assert_eq!(rt; &buffer, b"octe");
    assert_eq!(rt; files.read(&mut buffer), Ok(2));
    assert_eq!(rt; &buffer[..2], b"ts".as_slice());
    assert_eq!(rt; files.read(&mut buffer), Ok(0));
    Ok(())
}

#[test]
fn the_armed_call_alone_fails(rt: HostRuntime) -> Result<(), Fail> {
    let mut files = MemFiles::new(rt.alloc());
    files.add("name", b"o")?;
    files.fail_at(2)?;
    let mut buffer = [0; 4];
    assert_eq!(rt; files.open("name"), Ok(()));
    assert_eq!(rt; files.read(&mut buffer), Err(Failed));
    assert_eq!(rt; files.open("name"), Ok(()));
    assert_eq!(rt; files.read(&mut buffer), Ok(1));
    Ok(())
}

#[test]
fn sure_files_are_read_to_their_ends(rt: HostRuntime) -> Result<(), Fail> {
    let mut files = SureFiles::new(rt.alloc());
    files.add("first", b"one")?;
    files.add("second", b"two")?;
    let mut buffer = [0; 4];
    assert_eq!(rt; files.open("second"), Ok(()));
    assert_eq!(rt; files.read(&mut buffer), Ok(3));
    assert_eq!(rt; &buffer[..3], b"two".as_slice());
    assert_eq!(rt; files.open("first"), Ok(()));
    assert_eq!(rt; files.read(&mut buffer), Ok(3));
    assert_eq!(rt; &buffer[..3], b"one".as_slice());
    assert_eq!(rt; files.read(&mut buffer), Ok(0));
    Ok(())
}

#[test]
fn a_counting_sink_takes_each_piece_whole(rt: HostRuntime) {
    let mut out = CountSink::new();
    assert_eq!(rt; out.write(b"abc"), Ok(3));
    assert_eq!(rt; print_text(b"defg", &mut out), Ok(()));
    assert_eq!(rt; out.count(), 7);
}

#[test]
fn a_line_is_put_together(rt: HostRuntime) {
    let mut line = LineBuf::new();
    line.text("number ");
    line.decimal(281_474_976_710_655);
    line.octet(b' ');
    line.hex(&[0x0a, 0xf1]);
    assert_eq!(rt; line.bytes(), b"number 281474976710655 0af1".as_slice());
}
