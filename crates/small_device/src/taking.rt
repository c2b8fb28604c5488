ghost use Rattle.std.specs.Prelude.{◌≡◌, ◌<◌, ◌↔◌, true, [], length, option_map, IfSome, IfOk, MatchResult, IsTrue, IsOk};
ghost use Rattle.nvm_model.specs.Nvm.{fault_of};
ghost use Rattle.seq_store.specs.Calls.{IsRenumbered};
ghost use Rattle.seq_store.specs.Runs.{Runs};
ghost use Rattle.seq_store.specs.Store.{store_state, lanes_of, numbers_of};
ghost use Rattle.cemi_frames.specs.Frames.{telegram};
ghost use Rattle.small_device.specs.Device.{place_in, taken};

use cemi_frames::Frame;
use judge_rules::{Entry, Verdict};
use key_tables::{Lane, LaneList, Tables};
use nvm_model::{Nvm, NvmFault};
use secure_apdu::ApduBuf;
use seq_store::SeqStore;

/// Judges a telegram, keeps its number where one is to be kept, and only then hands out its APDU, where it was
/// accepted. None is told of a telegram that has no lane of the device: nothing is to be done with it.
///
/// After a fault of the memory there is no APDU, and the store is not sound.
pub fn take<M: Nvm>(
    store: &mut SeqStore<M>,
    lanes: &LaneList,
    tables: &Tables,
    frame: &Frame<'_>,
    apdu: &mut ApduBuf,
) -> Result<Option<Verdict>, NvmFault>
    requires sound { (store_state store.old).sound ≡ true }
    requires its_lanes { length lanes.now ≡ lanes_of (store_state store.old) }

    ensures verdict { let old = store_state store.old in
        IfOk result (λ verdict. verdict ≡ (taken tables.now lanes.now old.marks (telegram frame.now)).verdict) }
    ensures apdu { let old = store_state store.old in MatchResult result
        (λ _. apdu.new ≡ (taken tables.now lanes.now old.marks (telegram frame.now)).apdu)
        (λ _. apdu.new ≡ []) }
    ensures runs { let old = store_state store.old in let new = store_state store.new in
        Runs (numbers_of old) (taken tables.now lanes.now old.marks (telegram frame.now)).raises (fault_of result)
        (M.state old.memory) (M.state new.memory) (M.images old.memory) (M.images new.memory) }
    ensures numbers { let old = store_state store.old in
        IsRenumbered result (taken tables.now lanes.now old.marks (telegram frame.now)).raises
        old (store_state store.new) }
    ensures next { (store_state store.new).next ≡ (store_state store.old).next }
    ensures sound { IsTrue (store_state store.new).sound ↔ IsOk result }
{
    apdu.clear();
    let entry = Entry::enter(tables, frame);
    let Some(place) = place_of(lanes, entry.lane()) else {
        return Ok(None);
    };
    let judgement = entry.judge(store.mark(place), None, apdu);
    if let Some((_, number)) = judgement.keeps {
        if let Err(fault) = store.raise(place, number) {
            apdu.clear();
            return Err(fault);
        }
    }
    if !matches!(judgement.verdict, Verdict::Accepted { .. }) {
        apdu.clear();
    }
    Ok(Some(judgement.verdict))
}

// The index of a lane among those of the device.
fn place_of(lanes: &LaneList, lane: Option<Lane>) -> Option<usize>
    ensures place { result ≡ place_in lanes.now lane }
    ensures in_range { IfSome result (λ place. place < length lanes.now) }
{
    lanes.place(lane?)
}
