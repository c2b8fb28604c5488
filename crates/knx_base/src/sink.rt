ghost use Rattle.std.specs.Prelude.{ℕ, ◌<◌, List, length, Option};
ghost use Rattle.knx_base.specs.Faults.{HasCause};
ghost use Rattle.knx_base.specs.Sink.{TakesPiece, Prints};

use crate::Failed;

/// Where octets go, one piece after the other.
pub trait Sink {
    // the octets so far, where the sink tells them
    ghost octets: { Self → Option (List ℕ) };

    // how many calls failed
    ghost faults: { Self → ℕ };

    /// Takes a prefix of `bytes`, at least one octet, and answers how many. A call that takes none is a fault.
    fn write(&mut self, bytes: &[u8]) -> Result<usize, Failed>
        requires not_empty { 0 < length bytes.now }
        ensures taken { TakesPiece (octets self.old) (octets self.new) result bytes.now }
        ensures cause { HasCause (faults self.old) (faults self.new) result };
}

/// Writes the whole text. Where a call of the sink fails, a prefix of it was written.
pub fn print_text<S: Sink>(text: &[u8], out: &mut S) -> Result<(), Failed>
    ensures text { Prints (S.octets out.old) (S.octets out.new) result text.now }
    ensures cause { HasCause (S.faults out.old) (S.faults out.new) result }
{
    let mut rest = text;
    while !rest.is_empty() {
        let taken = out.write(rest)?;
        rest = &rest[taken..];
    }
    Ok(())
}
