ghost use Rattle.std.specs.Prelude.{◌≡◌, ℕ, ◌+◌, ◌-◌, ◌<◌, ◌≤◌, min};
ghost use Rattle.script_text.specs.Made.{ask_made, cut_made, deliver_made, drawn, event_made, kind_made, next_state, on_made, send_made, set_made, torn_made, value_made};
ghost use Rattle.script_text.specs.Lists.{IsMade};
ghost use Rattle.script_text.specs.Script.{IsEvent};

use crate::Event;
use group_objects::{SendService, Value};
use knx_base::{IndAddr, Number48};

const FACTOR: u64 = 6364136223846793005;

const STEP: u64 = 1442695040888963407;

// The address of the first node.
pub(crate) const FIRST_ADDRESS: u16 = 0x1101;

// Where the draws of events stand: their state, and how many sends and requests were drawn.
#[derive(Clone, Copy)]
pub(crate) struct Draws {
    pub(crate) state: u64,
    pub(crate) sends: u32,
}

impl Draws {
    // One of so many.
    fn draw(&mut self, bound: u64) -> u64
        requires some { 0 < bound }
        ensures drawn { result ≡ drawn self.new.state bound }
        ensures state { self.new.state ≡ next_state self.old.state }
        ensures same { self.new.sends ≡ self.old.sends }
        ensures below { result < bound }
    {
        self.state = self.state.wrapping_mul(FACTOR).wrapping_add(STEP);
        (self.state >> 33) % bound
    }

    fn draw_node(&mut self) -> usize
        ensures drawn { result ≡ drawn self.new.state 4 }
        ensures state { self.new.state ≡ next_state self.old.state }
        ensures same { self.new.sends ≡ self.old.sends }
        ensures below { result < 4 }
    {
        self.draw(4) as usize
    }

    // The event of this number.
    #[tactic(auto, unfolding(crate::specs::Made::event_made))]
    pub(crate) fn event(&mut self, number: u32) -> Event
        requires some { 0 < number }
        requires counted { self.old.sends < number }
        requires most { number ≤ 100000 }
        ensures made { IsMade (event_made number self.old.state self.old.sends) result self.new.state self.new.sends }
        ensures ranges { IsEvent 4 result }
        ensures counted { self.new.sends ≤ self.old.sends + 1 }
    {
        let kind = self.draw(16);
        self.event_of(kind, number)
    }

    fn event_of(&mut self, kind: u64, number: u32) -> Event
        requires counted { self.old.sends < 100000 }
        ensures made { IsMade (kind_made kind number self.old.state self.old.sends) result self.new.state
            self.new.sends }
        ensures ranges { IsEvent 4 result }
        ensures counted { self.new.sends ≤ self.old.sends + 1 }
    {
        if kind <= 4 {
            self.send()
        } else if kind <= 5 {
            self.set()
        } else if kind <= 11 {
            self.deliver()
        } else if kind <= 12 {
            self.ask(number)
        } else if kind <= 13 {
            self.cut()
        } else {
            self.on()
        }
    }

    fn send(&mut self) -> Event
        requires counted { self.old.sends < 100000 }
        ensures made { IsMade (send_made self.old.state self.old.sends) result self.new.state self.new.sends }
        ensures ranges { IsEvent 4 result }
    {
        let node = self.draw_node();
        let object = self.draw(2) as usize;
        self.sends += 1;
        Event::Send {
            node,
            object,
            service: SendService::Write,
        }
    }

    fn set(&mut self) -> Event
        ensures made { IsMade (set_made self.old.state self.old.sends) result self.new.state self.new.sends }
        ensures ranges { IsEvent 4 result }
    {
        let node = self.draw_node();
        let object = self.draw(2) as usize;
        let value = made_value(object, self.draw(64) as u8);
        Event::Set {
            node,
            object,
            value,
        }
    }

    fn deliver(&mut self) -> Event
        ensures made { IsMade (deliver_made self.old.state self.old.sends) result self.new.state self.new.sends }
        ensures ranges { IsEvent 4 result }
    {
        let telegram = self.telegram();
        let node = self.draw_node();
        Event::Deliver { telegram, node }
    }

    // The first telegram, or one of the last eight that were sent or may have been.
    fn telegram(&mut self) -> u32
        ensures first { self.old.sends ≡ 0 → (result ≡ 1) × (self.new.state ≡ self.old.state) }
        ensures late { 0 < self.old.sends → (result ≡ self.old.sends - drawn self.new.state (min self.old.sends 8))
            × (self.new.state ≡ next_state self.old.state) }
        ensures same { self.new.sends ≡ self.old.sends }
        ensures some { 0 < result }
    {
        if self.sends == 0 {
            return 1;
        }
        self.sends - self.draw(self.sends.min(8) as u64) as u32
    }

    fn ask(&mut self, number: u32) -> Event
        requires counted { self.old.sends < 100000 }
        ensures made { IsMade (ask_made number self.old.state self.old.sends) result self.new.state self.new.sends }
        ensures ranges { IsEvent 4 result }
    {
        let node = 1 + self.draw(3) as u16;
        self.sends += 1;
        Event::Ask {
            node: 0,
            to: IndAddr(FIRST_ADDRESS + node),
            challenge: Number48::new(number as u64).unwrap().to_bytes(),
        }
    }

    fn cut(&mut self) -> Event
        ensures made { IsMade (cut_made self.old.state self.old.sends) result self.new.state self.new.sends }
        ensures ranges { IsEvent 4 result }
    {
        let node = self.draw_node();
        let write = 1 + self.draw(6) as u32;
        let torn = made_octet(self.draw(3));
        Event::Cut { node, write, torn }
    }

    fn on(&mut self) -> Event
        ensures made { IsMade (on_made self.old.state self.old.sends) result self.new.state self.new.sends }
        ensures ranges { IsEvent 4 result }
    {
        Event::On {
            node: self.draw_node(),
        }
    }
}

fn made_octet(choice: u64) -> u8
    requires few { choice < 3 }
    ensures { result ≡ torn_made choice }
{
    match choice {
        0 => 0x00,
        1 => 0xa5,
        _ => 0xff,
    }
}

// A value of the first object, or of the second.
fn made_value(object: usize, value: u8) -> Value
    requires six { value < 64 }
    ensures { result ≡ value_made object value }
{
    if object == 0 {
        Value::bits(value).unwrap()
    } else {
        Value::octets(&[0, value]).unwrap()
    }
}
