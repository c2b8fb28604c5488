use crate::{LineRead, Source, TextLine, read_line};
use knx_base::{Failed, Files, MemFiles};
use std::test::Fail;

#[test]
fn a_file_is_read_line_by_line(rt: HostRuntime) -> Result<(), Fail> {
    let mut files = MemFiles::new(rt.alloc());
    files.add("name", b"a\r\n\nb\rc")?;
    assert_eq!(rt; files.open("name"), Ok(()));
    let mut source = Source::new();
    let mut line = TextLine::new();
    assert_eq!(rt;
        read_line(&mut source, &mut files, &mut line)?,
        LineRead::Whole
    );
    assert_eq!(rt; line.bytes(), b"a".as_slice());
    assert_eq!(rt;
        read_line(&mut source, &mut files, &mut line)?,
        LineRead::Whole
    );
    assert_eq!(rt; line.bytes(), b"".as_slice());
    assert_eq!(rt;
        read_line(&mut source, &mut files, &mut line)?,
        LineRead::Whole
    );
    assert_eq!(rt; line.bytes(), b"b\rc".as_slice());
    assert_eq!(rt;
        read_line(&mut source, &mut files, &mut line)?,
        LineRead::End
    );
    Ok(())
}

#[test]
fn a_line_has_at_most_1024_octets(rt: HostRuntime) -> Result<(), Fail> {
    let mut files = MemFiles::new(rt.alloc());
    let mut text = [b'#'; 1026];
    text[1024] = b'\r';
    text[1025] = b'\n';
    files.add("longest", &text)?;
    text[1024] = b'#';
    files.add("long", &text)?;
    let mut source = Source::new();
    let mut line = TextLine::new();
    assert_eq!(rt; files.open("longest"), Ok(()));
    assert_eq!(rt;
        read_line(&mut source, &mut files, &mut line),
        Ok(LineRead::Whole)
    );
    assert_eq!(rt; line.bytes(), &text[..1024]);
    assert_eq!(rt; files.open("long"), Ok(()));
    assert_eq!(rt;
        read_line(&mut source, &mut files, &mut line),
        Ok(LineRead::Long)
    );
    Ok(())
}

#[test]
fn a_failure_is_handed_on(rt: HostRuntime) -> Result<(), Fail> {
    let mut files = MemFiles::new(rt.alloc());
    files.add("name", b"a")?;
    files.fail_at(2)?;
    assert_eq!(rt; files.open("name"), Ok(()));
    let mut source = Source::new();
    let mut line = TextLine::new();
    assert_eq!(rt; read_line(&mut source, &mut files, &mut line), Err(Failed));
    Ok(())
}
