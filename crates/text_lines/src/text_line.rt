ghost use Rattle.std.specs.Prelude.{◌≡◌, ℕ, ◌+◌, ◌≤◌, ◌<◌, ◌↔◌, ◌≢◌, List, [], ◌∷◌, ◌++◌, length, take, nat_lt, if◌then◌else◌, IsTrue, IsFalse, IsSome, IfOk, OnErr};
ghost use Rattle.std.specs.Str.Lines.{strip_carriage_return};
ghost use Rattle.knx_base.specs.Faults.{HasCause};
ghost use Rattle.knx_base.specs.Files.{Seen};
ghost use Rattle.text_lines.specs.Pieces.{IsOneLine, TakesPiece};
ghost use Rattle.text_lines.specs.Reading.{GoesOn, OthersStay, ReadsLine, least_of};

use crate::Source;
use crate::lines::{MOST_OCTETS, place_of_line_feed};
use knx_base::{Failed, Files};
use std::marker::Model;

#[cfg(test)]
mod tests;

// One more octet than a line may have: the carriage return of the longest line, or what shows that a line is longer.
const ROOM: usize = MOST_OCTETS + 1;

/// A line of a text, without its end, in memory of its own. A contract sees it as its octets.
#[derive(Drop)]
pub struct TextLine {
    store: [u8; ROOM],
    len: usize,
}

impl Model for TextLine {
    ghost Value = { List ℕ };

    ghost view = { λ line. take line.len line.store };

    ghost invariant = { λ line. line.len ≤ 1025 };
}

/// What was read of a line.
#[derive(Clone, Copy, Debug, PartialEq, Eq)]
pub enum LineRead {
    /// No line: the file has ended.
    End,
    /// A line of at most 1,024 octets.
    Whole,
    /// More octets than a line may have.
    Long,
}

impl TextLine {
    /// An empty line.
    pub fn new() -> TextLine
        ensures empty { result ≡ [] }
    {
        TextLine {
            store: [0; ROOM],
            len: 0,
        }
    }

    /// The octets of the line.
    pub fn bytes(&self) -> &[u8]
        ensures octets { result.now ≡ self.now }
    {
        &self.store[..self.len]
    }

    fn clear(&mut self)
        ensures empty { self.new ≡ [] }
    {
        self.len = 0;
    }

    // Adds these octets, if there is room for them. The answer is whether there is.
    fn extend(&mut self, octets: &[u8]) -> bool
        ensures room { length self.new ≤ 1025 }
        ensures added { IsTrue result → self.new ≡ self.old ++ octets.now }
        ensures long { IsFalse result → 1025 < length self.old + length octets.now }
    {
        if octets.len() > ROOM - self.len {
            return false;
        }
        let end = self.len + octets.len();
        self.store[self.len..end].copy_from_slice(octets);
        self.len = end;
        true
    }

    // Takes the octets that are held up to a line feed, and it, as the end of this line. `None` where none is among
    // them and the line goes on.
    fn take_piece(&mut self, source: &mut Source) -> Option<LineRead>
        requires one_line { IsOneLine self.old }
        requires some { source.old ≢ [] }
        ensures piece { TakesPiece self.old source.old self.new source.new result }
    {
        match place_of_line_feed(source.bytes()) {
            Some(end) => {
                let fits = self.extend(&source.bytes()[..end]);
                source.take_front(end + 1);
                Some(if fits {
                    self.end_at_line_feed()
                } else {
                    LineRead::Long
                })
            }
            None => {
                let fits = self.extend(source.bytes());
                source.clear();
                if fits { None } else { Some(LineRead::Long) }
            }
        }
    }

    // The line was ended by a line feed.
    fn end_at_line_feed(&mut self) -> LineRead
        ensures line { self.new ≡ strip_carriage_return self.old }
        ensures read { result ≡ (if nat_lt 1024 (length self.new) then LineRead.Long else LineRead.Whole) }
    {
        if self.len > 0 && self.store[self.len - 1] == b'\r' {
            self.len -= 1;
        }
        self.by_length()
    }

    // The line was ended by the file.
    fn end_at_file_end(&self) -> LineRead
        ensures taken { least_of result ≤ length self.now }
        ensures end { self.now ≡ [] → result ≡ LineRead.End }
        ensures line { self.now ≢ [] → result ≡ (if nat_lt 1024 (length self.now) then LineRead.Long
            else LineRead.Whole) }
    {
        if self.len == 0 {
            LineRead::End
        } else {
            self.by_length()
        }
    }

    fn by_length(&self) -> LineRead
        ensures taken { least_of result ≡ 1 }
        ensures read { result ≡ (if nat_lt 1024 (length self.now) then LineRead.Long else LineRead.Whole) }
    {
        if self.len > MOST_OCTETS {
            LineRead::Long
        } else {
            LineRead::Whole
        }
    }
}

/// Reads the next line of the current file. A line ends with a line feed, or a carriage return and a line feed; the
/// last may end with the file.
pub fn read_line<F: Files>(
    source: &mut Source,
    files: &mut F,
    line: &mut TextLine,
) -> Result<LineRead, Failed>
    requires current { IsSome (F.seen files.old).current }
    ensures told { (F.seen files.new).told ≡ (F.seen files.old).told }
    ensures others { OthersStay (F.seen files.old) (F.seen files.new) }
    ensures goes { IfOk result (λ read. GoesOn (F.seen files.old) (F.seen files.new) source.old source.new
        (least_of read)) }
    ensures line { IfOk result (λ read. ReadsLine (F.seen files.old) (F.seen files.new) source.old source.new line.new
        read) }
    ensures failed { OnErr result (source.new ≡ []) }
    ensures cause { HasCause (F.seen files.old).faults (F.seen files.new).faults result }
{
    line.clear();
    'pieces: loop {
        source.refill(files)?;
        if source.is_empty() {
            return Ok(line.end_at_file_end());
        }
        if let Some(read) = line.take_piece(source) {
            return Ok(read);
        }
    }
}
