ghost use Rattle.std.specs.Prelude.{◌≡◌, ℕ};
ghost use Rattle.frame_file.specs.Lists.{IsOfText};
ghost use Rattle.frame_file.specs.Records.{refusal_of};

use knx_base::Cause;
use tag_text::TagFault;

/// What an element of a recorded log has to have.
#[derive(Clone, Copy, Debug, PartialEq, Eq)]
pub enum Field {
    Timestamp,
    RawData,
}

/// Why no more records are given. Lines are counted from 1. The place of an element is that of its `<`.
#[derive(Clone, Copy, Debug, PartialEq, Eq)]
pub enum RecordFault {
    /// The line of this number says no record, for this cause.
    Line(u64, Cause),
    /// The line of this number has more than 1,024 octets.
    LongLine(u64),
    /// The line of this number has one record more than a list may have.
    TooMany(u64),
    /// The log has more than 16,777,216 octets.
    LongFile,
    /// The log is no document of elements.
    Tag(TagFault),
    /// The element at this place does not have this attribute.
    Missing(Field, usize),
    /// The `Timestamp` of the element at this place is no instant.
    Time(usize),
    /// The `RawData` of the element at this place is not 2 to 2,048 hexadecimal digits, an even number of them.
    Digits(usize),
    /// The files failed to read on.
    ReadFault,
    /// There was no memory.
    NoMemory,
}

pub(crate) fn refusal(line: u64, cause: Cause) -> RecordFault
    ensures refusal { result ≡ refusal_of line cause }
    ensures text { IsOfText result }
{
    match cause {
        Cause::Long => RecordFault::LongLine(line),
        _ => RecordFault::Line(line, cause),
    }
}
