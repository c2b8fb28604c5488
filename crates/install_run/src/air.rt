//! The telegrams that were put on the air.
ghost use Rattle.std.specs.Prelude.{◌≡◌, true, option_map};
ghost use Rattle.install_run.specs.Machine.{put_on_air, telegram_in, heard, lost_in, lose_outcome};

use crate::octets::Octets;
use script_text::RawFrame;
use secure_apdu::FrameBuf;
use std::marker::Model;
use step_text::StepOutcome;

// A telegram, which may be lost. A contract sees its octets, and whether it is lost.
#[derive(Drop)]
pub(crate) struct Telegram {
    octets: Octets,
    is_lost: bool,
}

impl Model for Telegram {
    ghost use Rattle.install_run.specs.Air.{octets_of};
    ghost use Rattle.install_run.specs.Machine.{TelegramAt};

    ghost Value = { TelegramAt };

    ghost view = { λ t. record { octets = octets_of t.octets; is_lost = t.is_lost } };
}

impl Telegram {
    pub(crate) fn sealed(octets: FrameBuf) -> Telegram
        ensures telegram { result ≡ put_on_air octets }
    {
        Telegram {
            octets: Octets::Sealed(octets),
            is_lost: false,
        }
    }

    pub(crate) fn injected(octets: RawFrame) -> Telegram
        ensures telegram { result ≡ put_on_air octets }
    {
        Telegram {
            octets: Octets::Injected(octets),
            is_lost: false,
        }
    }

    pub(crate) fn octets(&self) -> &[u8]
        ensures octets { result.now ≡ self.now.octets }
    {
        match &self.octets {
            Octets::Sealed(octets) => octets.bytes(),
            Octets::Injected(octets) => octets.bytes(),
        }
    }

    pub(crate) fn is_lost(&self) -> bool
        ensures lost { result ≡ self.now.is_lost }
    {
        self.is_lost
    }

    fn lose(&mut self)
        ensures lost { self.new ≡ record self.old { is_lost = true } }
    {
        self.is_lost = true;
    }
}

// The telegram of this number; the first has number 1.
pub(crate) fn telegram_in(air: &[Telegram], number: u32) -> Option<&Telegram>
    ensures telegram { option_map (λ t. t.now) result ≡ telegram_in air.now number }
{
    if number == 0 {
        return None;
    }
    air.get((number - 1) as usize)
}

// The octets of a telegram that is there and not lost.
pub(crate) fn heard(air: &[Telegram], number: u32) -> Option<&[u8]>
    ensures octets { option_map (λ octets. octets.now) result ≡ heard (telegram_in air.now number) }
{
    let telegram = telegram_in(air, number)?;
    if telegram.is_lost() {
        return None;
    }
    Some(telegram.octets())
}

// A telegram is lost from now on.
pub(crate) fn lose(air: &mut [Telegram], number: u32) -> StepOutcome
    ensures outcome { result ≡ lose_outcome (heard (telegram_in air.old number)) }
    ensures air { air.new ≡ lost_in air.old number (telegram_in air.old number) }
{
    let outcome = match heard(air, number) {
        Some(_) => StepOutcome::Lost,
        None => StepOutcome::Gone,
    };
    if 0 < number && number as usize <= air.len() {
        air[(number - 1) as usize].lose();
    }
    outcome
}
