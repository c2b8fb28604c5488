ghost use Rattle.std.specs.Prelude.{◌≡◌, ◌≤◌, ℕ, List, Some, Ok, OnOk, IfErr, IsOk, MatchResult, length};
ghost use Rattle.std.specs.Option.{ForSome};
ghost use Rattle.knx_base.specs.Files.{File, IsThere};
ghost use Rattle.knxsec_app.specs.Auditing.{word_of, most_of, within, unread_status};
ghost use Rattle.knxsec_app.specs.Commands.{octets_in, IsRead, IsWhole};
ghost use Rattle.knxsec_app.specs.Ends.{EndsReading, OpensOne, Stops, status_of};

use crate::Status;
use crate::refusing::refuse_whole;
use knx_base::{Files, Sink};
use std::alloc::Global;
use text_lines::{FileFault, read_all};

/// A file that is read whole before it is judged.
#[derive(Clone, Copy)]
pub(crate) enum WholeFile {
    Tables,
    Types,
    Keyring,
    Password,
    Script,
}

impl WholeFile {
    // The word for it in a refusal.
    fn word(self) -> &'static str
        ensures word { result.now ≡ word_of self }
        ensures short { length result.now ≤ 20 }
    {
        match self {
            WholeFile::Tables => "tables",
            WholeFile::Types => "types",
            WholeFile::Keyring => "keyring",
            WholeFile::Password => "password",
            WholeFile::Script => "script",
        }
    }

    // The most octets that it may have.
    fn most(self) -> usize
        ensures most { result ≡ most_of self }
    {
        match self {
            WholeFile::Tables => 4_194_304,
            WholeFile::Types => 4_194_304,
            WholeFile::Keyring => 4_194_304,
            WholeFile::Password => 4096,
            WholeFile::Script => 16_777_216,
        }
    }

    /// The octets of the named file. Where it has more than it may, its refusal is told.
    pub(crate) fn read<F: Files, S: Sink>(
        self,
        alloc: Global,
        name: &str,
        files: &mut F,
        out: &mut S,
    ) -> Result<Vec<u8>, Status>
        requires there { ForSome (F.seen files.old).told (λ told. IsThere told name.now) }
        ensures text { (told : List File) → (F.seen files.old).told ≡ Some told
            → MatchResult result (λ text. within self (octets_in told name.now) ≡ Ok text.items)
            (λ status. Stops (within self (octets_in told name.now)) status (S.octets out.old) (S.octets out.new)) }
        ensures read { IsOk result → (told : List File) → (F.seen files.old).told ≡ Some told
            → IsRead told (F.seen files.new) name.now }
        ensures told { (F.seen files.new).told ≡ (F.seen files.old).told }
        ensures opens { OpensOne (F.seen files.old) (F.seen files.new) name.now }
        ensures unwritten { OnOk result (out.new ≡ out.old) }
        ensures not_whole { IfErr result (λ status. IsWhole status → ⊥) }
        ensures ends { EndsReading (F.seen files.old) (F.seen files.new) (S.faults out.old) (S.faults out.new)
            (status_of result) }
    {
        match read_all(alloc, files, name, self.most()) {
            Ok(Some(text)) => Ok(text),
            Ok(None) => Err(refuse_whole(self.word(), " long", out)),
            Err(fault) => Err(unread(fault)),
        }
    }
}

// How a command ends that could not read a file.
fn unread(fault: FileFault) -> Status
    ensures status { result ≡ unread_status fault }
{
    match fault {
        FileFault::ReadFault => Status::ReadFault,
        FileFault::NoMemory => Status::NoMemory,
    }
}
