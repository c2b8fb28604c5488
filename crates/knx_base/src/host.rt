ghost use Rattle.std.specs.Prelude.{◌≡◌, ℕ, ◌≤◌, ◌<◌, None, Some, [], Option, List, length, IsSome, IsErr, IfOk, OnErr, option_and_then};
ghost use Rattle.std.specs.Option.{option_map};
ghost use Rattle.std.specs.Io.KnownBytes.{ReadConsumes};
ghost use Rattle.knx_base.specs.Faults.{counted, CountsFault, HasCause};
ghost use Rattle.knx_base.specs.Files.{Seen, Opens, Reads, last_place};
ghost use Rattle.knx_base.specs.Sink.{TakesPiece};
ghost use Rattle.knx_base.specs.Host.{HostState, seen_of};

use crate::files::room_after;
use crate::{Failed, Files, Sink};
use std::io::{self, ErrorKind, Print, Read};
use std::marker::Model;
use std::{fs, rt};

#[cfg(test)]
mod tests;

/// Standard output, or whatever the runtime prints to. It tells no octets.
///
/// A contract sees it as its count of faults.
#[derive(Drop)]
pub struct HostSink<'a, R: Print> {
    host: &'a R,
    faults: u64,
}

impl<'a, R: Print> Model for HostSink<'a, R> {
    ghost Value = { ℕ };

    ghost view = { λ s. s.faults };
}

impl<'a, R: Print> HostSink<'a, R> {
    /// The runtime's printing as a sink, with no faults so far.
    pub fn new(host: &'a R) -> HostSink<'a, R>
        ensures no_faults { result ≡ 0 }
    {
        HostSink { host, faults: 0 }
    }
}

impl<R: Print> Sink for HostSink<'_, R> {
    ghost octets = { λ _. None };

    ghost faults = { λ faults. faults };

    fn write(&mut self, bytes: &[u8]) -> Result<usize, Failed>
        ensures taken { TakesPiece None None result bytes.now }
        ensures cause { HasCause self.old self.new result }
        ensures counted { CountsFault self.old self.new result }
    {
        match print_some(self.host, bytes) {
            Ok(count) if count > 0 => Ok(count),
            _ => Err(fail(&mut self.faults)),
        }
    }
}

/// The files of the runtime, by their paths. They tell neither names nor octets; a name that is not there is a fault,
/// and so is every read at the last place.
#[derive(Drop)]
pub struct HostFiles<'a, R: rt::Files> {
    host: &'a R,
    file: Option<R::File>,
    place: u64,
    faults: u64,
}

impl<'a, R: rt::Files> Model for HostFiles<'a, R> {
    ghost Value = { HostState };

    ghost view = { λ s. record {
      current = option_map (λ _. []) s.file;
      remaining = option_and_then R.File.remaining
          s.file;
      place = s.place;
      faults = s.faults;
    } };
}

impl<'a, R: rt::Files> HostFiles<'a, R> {
    /// The runtime's files, with none current and no faults so far.
    pub fn new(host: &'a R) -> HostFiles<'a, R>
        ensures none_current { result.current ≡ None }
        ensures no_faults { result.faults ≡ 0 }
    {
        HostFiles {
            host,
            file: None,
            place: 0,
            faults: 0,
        }
    }
}

impl<R: rt::Files> Files for HostFiles<'_, R> {
    ghost seen = { seen_of };

    fn open(&mut self, name: &str) -> Result<(), Failed>
        ensures opens { Opens (seen_of self.old) (seen_of self.new) name.now result }
        ensures counted { CountsFault self.old.faults self.new.faults result }
        ensures only_closed { OnErr result (self.new ≡ record self.old {
          current = None;
          remaining = None;
          faults = counted self.old.faults;
        }) }
    {
        self.file = None;
        match open_file(self.host, name) {
            Ok(file) => {
                self.file = Some(file);
                self.place = 0;
                Ok(())
            }
            Err(_) => Err(fail(&mut self.faults)),
        }
    }

    fn read(&mut self, buffer: &mut [u8]) -> Result<usize, Failed>
        requires room { 0 < length buffer.old }
        requires current { IsSome self.old.current }
        ensures reads { Reads (seen_of self.old) (seen_of self.new) buffer.new result }
        ensures at_the_last_place { last_place ≤ self.old.place → IsErr result }
        ensures host { ReadConsumes self.old.remaining self.new.remaining result buffer.new }
        ensures counted { CountsFault self.old.faults self.new.faults result }
        ensures unmoved { OnErr result ((self.new.place ≡ self.old.place) × (self.new.current ≡ self.old.current)) }
    {
        if let Some(file) = &mut self.file
            && room_after(self.place) > 0
        {
            let room = room_after(self.place).min(buffer.len() as u64) as usize;
            if let Ok(count) = read_some(file, &mut buffer[..room]) {
                self.place += count as u64;
                return Ok(count);
            }
        }
        Err(fail(&mut self.faults))
    }
}

fn fail(faults: &mut u64) -> Failed
    ensures counted { faults.new ≡ counted faults.old }
    ensures later { faults.old ≤ faults.new }
{
    *faults = faults.saturating_add(1);
    Failed
}

// Asks the host until it answers: an interrupted call is made again.
fn print_some<R: Print>(host: &R, bytes: &[u8]) -> io::Result<usize>
    ensures bound { IfOk result (λ n. n ≤ length bytes.now) }
{
    for _ in 0..u64::MAX {
        match host.write_some(bytes) {
            Err(error) if error.kind() == ErrorKind::Interrupted => {}
            answer => return answer,
        }
    }
    Err(io::Error::from(ErrorKind::Interrupted))
}

fn open_file<R: rt::Files>(host: &R, name: &str) -> io::Result<R::File> {
    for _ in 0..u64::MAX {
        match fs::open(host, name) {
            Err(error) if error.kind() == ErrorKind::Interrupted => {}
            answer => return answer,
        }
    }
    Err(io::Error::from(ErrorKind::Interrupted))
}

fn read_some<F: Read>(file: &mut F, buffer: &mut [u8]) -> io::Result<usize>
    ensures bound { IfOk result (λ n. n ≤ length buffer.new) }
    ensures bytes { ReadConsumes (F.remaining file.old) (F.remaining file.new) result buffer.new }
{
    for _ in 0..u64::MAX {
        match file.read(buffer) {
            Err(error) if error.kind() == ErrorKind::Interrupted => {}
            answer => return answer,
        }
    }
    Err(io::Error::from(ErrorKind::Interrupted))
}
