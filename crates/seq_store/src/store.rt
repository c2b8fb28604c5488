ghost use Rattle.std.specs.Prelude.{◌≡◌, ◌≤◌, ◌^◌, true, length};
ghost use Rattle.std.proofs.Props.{props};
ghost use Rattle.seq_store.specs.Agrees.{Agrees};
ghost use Rattle.seq_store.specs.Layout.{most_lanes, store_size};

mod armed;
mod draw;
mod raise;
mod start;
mod views;

use knx_base::Number48;
use nvm_model::Nvm;

/// The marks of a device's lanes and the numbers that it draws, kept in a memory.
///
/// It is sound until a call of its memory fails. While it is sound its memory has power on and restores its marks; once
/// it is not, only its memory is of use: a start over it, once power is on, finds what the memory restores.
#[derive(Drop)]
pub struct SeqStore<M: Nvm> {
    memory: M,
    marks: Vec<Number48>,
    reserved: Number48,
    next: u64,
    sound: bool,
    ghost agrees: { sound ≡ true → Agrees (M.state memory) marks.items reserved } by { Prim.hlevel props },
    ghost next_fits: { next ≤ 2 ^ 48 },
    ghost lanes_fit: { length marks.items ≤ most_lanes },
    ghost size: { length (M.state memory).octets ≡ store_size (length marks.items) },
}
