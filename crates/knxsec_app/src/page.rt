ghost use Rattle.std.specs.Prelude.{◌≡◌, ℕ, ◌<◌, ◌≤◌, List, [], length, take, Some, OnOk, IfOk};
ghost use Rattle.knx_base.specs.Faults.{HasCause};
ghost use Rattle.knx_base.specs.Sink.{TakesPiece, Prints};
ghost use Rattle.knxsec_app.specs.Page.{PageState};

use knx_base::{Failed, NoMemory, Sink, print_text};
use std::alloc::Global;
use std::marker::Model;

// How many octets wait at the most.
const PAGE_OCTETS: usize = 65_536;

/// Text that waits before it goes to a sink in one large piece. It is a sink itself, which fails where it is full.
#[derive(Drop)]
pub(crate) struct Page {
    store: Vec<u8>,
    taken: usize,
    faults: u64,
}

impl Model for Page {
    ghost use Rattle.std.specs.Prelude.{◌≤◌, length, take};
    ghost use Rattle.knxsec_app.specs.Page.{PageState};

    ghost Value = { PageState };

    ghost view = { λ p. record { held = take p.taken p.store.items; faults = p.faults } };

    ghost invariant = { λ p. p.taken ≤ length p.store.items };
}

impl Page {
    /// A page on which nothing waits.
    pub(crate) fn new(alloc: Global) -> Result<Page, NoMemory>
        ensures empty { IfOk result (λ page. page.held ≡ []) }
    {
        let store = vec![in alloc; 0; PAGE_OCTETS]?;
        Ok(Page {
            store,
            taken: 0,
            faults: 0,
        })
    }

    fn bytes(&self) -> &[u8]
        ensures octets { result.now ≡ self.now.held }
    {
        &self.store[..self.taken]
    }

    /// How many octets wait.
    pub(crate) fn len(&self) -> usize
        ensures length { result ≡ length self.now.held }
    {
        self.taken
    }

    /// Leaves so many of the octets that wait, from the front.
    pub(crate) fn cut(&mut self, len: usize)
        requires some { len ≤ length self.old.held }
        ensures front { self.new.held ≡ take len self.old.held }
    {
        self.taken = len;
    }

    /// Hands on all that waits.
    pub(crate) fn hand_on<S: Sink>(&mut self, out: &mut S) -> Result<(), Failed>
        ensures text { Prints (S.octets out.old) (S.octets out.new) result self.old.held }
        ensures empty { OnOk result (self.new.held ≡ []) }
        ensures cause { HasCause (S.faults out.old) (S.faults out.new) result }
    {
        print_text(self.bytes(), out)?;
        self.cut(0);
        Ok(())
    }
}

impl Sink for Page {
    ghost octets = { λ p. Some p.held };

    ghost faults = { λ p. p.faults };

    fn write(&mut self, bytes: &[u8]) -> Result<usize, Failed>
        requires not_empty { 0 < length bytes.now }
        ensures taken { TakesPiece (Some self.old.held) (Some self.new.held) result bytes.now }
        ensures cause { HasCause self.old.faults self.new.faults result }
    {
        let count = bytes.len().min(self.store.len() - self.taken);
        if count == 0 {
            self.faults = self.faults.saturating_add(1);
            return Err(Failed);
        }
        self.store[self.taken..self.taken + count].copy_from_slice(&bytes[..count]);
        self.taken += count;
        Ok(count)
    }
}
