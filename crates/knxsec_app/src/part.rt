ghost use Rattle.std.specs.Prelude.{ℕ, List};
ghost use Rattle.knx_base.specs.Faults.{HasCause};
ghost use Rattle.knx_base.specs.Sink.{Prints};
ghost use Rattle.knxsec_app.specs.Page.{Passes};

use crate::page::Page;
use knx_base::{Failed, Sink};

/// A part of a report, which writes itself to a sink.
pub(crate) trait Part {
    // the text of it
    ghost text: { Self → List ℕ };

    fn print<S: Sink>(&self, out: &mut S) -> Result<(), Failed>
        ensures text { Prints (S.octets out.old) (S.octets out.new) result (text self.now) }
        ensures cause { HasCause (S.faults out.old) (S.faults out.new) result };
}

/// Adds a part to the page, or, where it is full, hands on all that waits and the part.
pub(crate) fn pass<P: Part, S: Sink>(part: &P, page: &mut Page, out: &mut S) -> Result<(), Failed>
    ensures text { Passes page.old.held page.new.held (S.octets out.old) (S.octets out.new) result (P.text part.now) }
    ensures cause { HasCause (S.faults out.old) (S.faults out.new) result }
{
    let held = page.len();
    match part.print(page) {
        Ok(()) => Ok(()),
        Err(_) => {
            page.cut(held);
            page.hand_on(out)?;
            part.print(out)
        }
    }
}
