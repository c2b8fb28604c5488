ghost use Rattle.std.specs.Prelude.{◌≡◌, ◌≤◌, ◌↔◌, true, length, IsTrue, IsNone};
ghost use Rattle.seq_store.specs.Calls.{IsNumberDrawn, IsRenumbered, ReservesFirst};
ghost use Rattle.seq_store.specs.Refusal.{draw_fault};
ghost use Rattle.seq_store.specs.Runs.{Runs, draw_raises};
ghost use Rattle.seq_store.specs.Store.{store_state, numbers_of};
ghost use Rattle.secure_apdu.specs.SealedFrame.{sealed_frame};
ghost use Rattle.small_device.specs.Device.{group_head, handed};

use aes_modes::Key128;
use knx_base::{GroupAddr, IndAddr, Number48};
use nvm_model::Nvm;
use secure_apdu::{FrameBuf, SendHead, seal_frame};
use seq_store::{DrawFault, SeqStore};

// The control field of data that is encrypted.
const ENCRYPTED: u8 = 0x10;

/// Seals an APDU of 2 to 242 octets for a group, encrypted and under the next number, and writes its frame into `out`.
/// Where no number is drawn `out` is as before.
pub fn send<M: Nvm>(
    store: &mut SeqStore<M>,
    key: &Key128,
    source: IndAddr,
    group: GroupAddr,
    apdu: &[u8],
    out: &mut FrameBuf,
) -> Result<Number48, DrawFault>
    requires sound { (store_state store.old).sound ≡ true }
    requires some { 2 ≤ length apdu.now }
    requires short { length apdu.now ≤ 242 }

    ensures number { IsNumberDrawn result (store_state store.old) (store_state store.new) }
    ensures frame { out.new
        ≡ handed (λ number. sealed_frame key.now (group_head source group number) apdu.now) result out.old }
    ensures runs { let old = store_state store.old in let new = store_state store.new in
        Runs (numbers_of old) (draw_raises old.reserved old.next) (draw_fault result)
        (M.state old.memory) (M.state new.memory) (M.images old.memory) (M.images new.memory) }
    ensures numbers { let old = store_state store.old in
        IsRenumbered result (draw_raises old.reserved old.next) old (store_state store.new) }
    ensures reserves { ReservesFirst result (store_state store.old) (store_state store.new) M.state M.images }
    ensures sound { IsTrue (store_state store.new).sound ↔ IsNone (draw_fault result) }
{
    let number = store.draw()?;
    let head = SendHead {
        source,
        destination: group.0,
        group: true,
        number,
        shown: number,
        field: ENCRYPTED,
    };
    seal_frame(key, &head, apdu, out);
    Ok(number)
}
