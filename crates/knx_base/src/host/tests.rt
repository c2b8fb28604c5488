ghost use Rattle.std.specs.Prelude.{◌≤◌, length, IfOk};

use super::read_some;
use crate::{Failed, Files, HostFiles, HostSink, Sink};
use std::cell::Cell;
use std::fmt::Display;
use std::fs;
use std::io::{self, ErrorKind, Print, Read};
use std::test::Fail;

/// An output whose first write is interrupted, and that takes two octets at the most.
#[derive(Drop)]
struct Interrupted {
    writes: Cell<u8>,
}

impl Print for Interrupted {
    fn print<D: Display + Drop>(&self, _value: D) -> io::Result<()> {
        Ok(())
    }

    fn println<D: Display + Drop>(&self, _value: D) -> io::Result<()> {
        Ok(())
    }

    fn write_all(&self, _bytes: &[u8]) -> io::Result<()> {
        Ok(())
    }

    fn write_some(&self, bytes: &[u8]) -> io::Result<usize>
        ensures bound { IfOk result (λ n. n ≤ length bytes.now) }
    {
        let writes = self.writes.get();
        self.writes.set(writes.saturating_add(1));
        if writes == 0 {
            return Err(io::Error::from(ErrorKind::Interrupted));
        }
        Ok(bytes.len().min(2))
    }
}

/// A file whose first read is interrupted, and that gives two octets at the most.
#[derive(Drop)]
struct InterruptedFile {
    reads: u8,
}

impl Read for InterruptedFile {
    fn read(&mut self, buffer: &mut [u8]) -> io::Result<usize> {
        let reads = self.reads;
        self.reads = reads.saturating_add(1);
        if reads == 0 {
            return Err(io::Error::from(ErrorKind::Interrupted));
        }
        let count = buffer.len().min(2);
        buffer[..count].fill(7);
        Ok(count)
    }
}

#[test]
fn an_interrupted_write_is_made_again_and_a_short_one_is_no_fault(rt: HostRuntime) {
    let host = Interrupted {
        writes: Cell::new(0),
    };
    let mut out = HostSink::new(&host);
    assert_eq!(rt; out.write(b"abc"), Ok(2));
    assert_eq!(rt; host.writes.get(), 2);
    assert_eq!(rt; out.write(b"c"), Ok(1));
    assert_eq!(rt; host.writes.get(), 3);
}

#[test]
fn an_interrupted_read_is_made_again_and_a_short_one_is_no_fault(rt: HostRuntime) {
    let mut file = InterruptedFile { reads: 0 };
    let mut buffer = [0; 4];
    assert_eq!(rt; read_some(&mut file, &mut buffer).ok(), Some(2));
    assert_eq!(rt; file.reads, 2);
    assert_eq!(rt; buffer, [7, 7, 0, 0]);
}

#[test]
fn a_file_is_opened_by_its_name_as_it_stands(rt: HostRuntime) -> Result<(), Fail> {
    fs::write(&rt, " A name. ", "octets")?;
    let mut files = HostFiles::new(&rt);
    let mut buffer = [0; 8];
    assert_eq!(rt; files.open(" A name. "), Ok(()));
    assert_eq!(rt; files.read(&mut buffer), Ok(6));
    assert_eq!(rt; &buffer[..6], b"octets".as_slice());
    assert_eq!(rt; files.open("A name."), Err(Failed));
    Ok(())
}
