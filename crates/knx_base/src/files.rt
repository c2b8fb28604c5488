ghost use Rattle.std.specs.Prelude.{◌≡◌, ℕ, ◌-◌, ◌<◌, length, IsSome};
ghost use Rattle.std.specs.Option.{ForSome};
ghost use Rattle.knx_base.specs.Files.{Seen, IsThere, Opens, Reads, last_place};

use crate::Failed;

// No read goes past this place of a file.
const LAST_PLACE: u64 = 1 << 40;

/// How many octets of a file may be read from this place on, whatever it has.
pub(crate) fn room_after(place: u64) -> u64
    ensures room { result ≡ last_place - place }
{
    LAST_PLACE.saturating_sub(place)
}

/// Files by name, of which one is current and is read from its start to its end.
pub trait Files {
    // what is seen of the files
    ghost seen: { Self → Seen };

    /// Makes the named file current, at its start. After a failure no file is current.
    fn open(&mut self, name: &str) -> Result<(), Failed>
        requires there { ForSome (seen self.old).told (λ files. IsThere files name.now) }
        ensures opens { Opens (seen self.old) (seen self.new) name.now result };

    /// Copies the next octets of the current file to the front of `buffer` and answers how many, 0 at its end only.
    fn read(&mut self, buffer: &mut [u8]) -> Result<usize, Failed>
        requires room { 0 < length buffer.old }
        requires current { IsSome (seen self.old).current }
        ensures reads { Reads (seen self.old) (seen self.new) buffer.new result };
}
