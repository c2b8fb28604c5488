ghost use Rattle.std.specs.Prelude.{◌≡◌, ◌≢◌, ℕ, ◌≤◌, List, [], ◌∷◌, ◌++◌, length, drop, Option, Some, None, IsSome, IfOk, option_map};
ghost use Rattle.std.specs.Option.{ForSome};
ghost use Rattle.knx_base.specs.Faults.{Rose};
ghost use Rattle.knx_base.specs.Files.{Seen, Holds, IsThere};
ghost use Rattle.text_lines.specs.Reading.{GoesOn, OthersStay, WhereTold, ReadsRest, ReadsWhole};

use crate::Source;
use knx_base::Files;
use std::alloc::Global;

#[cfg(test)]
mod tests;

/// Why a whole file was not read.
#[derive(Clone, Copy, Debug, PartialEq, Eq)]
pub enum FileFault {
    /// The files failed to open it or to read on.
    ReadFault,
    /// There was no memory.
    NoMemory,
}

/// Opens the named file and reads it to its end: its octets, or `None` where it has more than `most`.
pub fn read_all<F: Files>(
    alloc: Global,
    files: &mut F,
    name: &str,
    most: usize,
) -> Result<Option<Vec<u8>>, FileFault>
    requires there { ForSome (F.seen files.old).told (λ told. IsThere told name.now) }
    ensures told { (F.seen files.new).told ≡ (F.seen files.old).told }
    ensures whole { IfOk result (λ found. (octets : List ℕ) → Holds (F.seen files.old) name.now octets
        → ReadsWhole most octets ((F.seen files.new).places name.now) (option_map (λ text. text.items) found)) }
    ensures opened { IsSome (F.seen files.old).told
        → (F.seen files.new).opened ≡ (F.seen files.old).opened ++ name.now ∷ [] }
    ensures others { (other : List ℕ) → other ≢ name.now → IsSome (F.seen files.old).told
        → (F.seen files.new).places other ≡ (F.seen files.old).places other }
    ensures later { (F.seen files.old).faults ≤ (F.seen files.new).faults }
    ensures kept { result ≢ Err FileFault.ReadFault → (F.seen files.new).faults ≡ (F.seen files.old).faults }
    ensures read_fault { result ≡ Err FileFault.ReadFault → Rose (F.seen files.old).faults (F.seen files.new).faults }
{
    match files.open(name) {
        Ok(()) => read_rest(alloc, files, most),
        Err(_) => Err(FileFault::ReadFault),
    }
}

// What the current file has from its place on.
fn read_rest<F: Files>(
    alloc: Global,
    files: &mut F,
    most: usize,
) -> Result<Option<Vec<u8>>, FileFault>
    requires current { IsSome (F.seen files.old).current }
    ensures told { (F.seen files.new).told ≡ (F.seen files.old).told }
    ensures others { OthersStay (F.seen files.old) (F.seen files.new) }
    ensures goes { IfOk result (λ found. GoesOn (F.seen files.old) (F.seen files.new) [] [] 0) }
    ensures rest { IfOk result (λ found. WhereTold (F.seen files.old)
        (λ octets. ReadsRest most (drop (F.seen files.old).place octets) (drop (F.seen files.new).place octets)
        (option_map (λ text. text.items) found))) }
    ensures later { (F.seen files.old).faults ≤ (F.seen files.new).faults }
    ensures kept { result ≢ Err FileFault.ReadFault → (F.seen files.new).faults ≡ (F.seen files.old).faults }
    ensures read_fault { result ≡ Err FileFault.ReadFault → Rose (F.seen files.old).faults (F.seen files.new).faults }
{
    let mut source = Source::new();
    let mut text = Vec::new(alloc);
    'pieces: loop {
        let Ok(()) = source.fill(files) else {
            return Err(FileFault::ReadFault);
        };
        if source.is_empty() {
            return Ok(Some(text));
        }
        if source.bytes().len() > most - text.len() {
            return Ok(None);
        }
        let Ok(()) = text.extend_from_slice(source.bytes()) else {
            return Err(FileFault::NoMemory);
        };
        source.clear();
    }
}
