ghost use Rattle.std.specs.Prelude.{◌≡◌, ◌/◌, ◌%◌, ◌==◌, not, false, Some, None, MatchOption};
ghost use Rattle.cemi_frames.specs.Frames.{telegram};
ghost use Rattle.secure_apdu.specs.Secure.{algorithm_of, bad_secure, HasParts};
ghost use Rattle.key_tables.specs.Rows.{key_of, lane_of};
ghost use Rattle.judge_rules.specs.Parts.{source_of, field_in, sync_service, number_in, channel_in};
ghost use Rattle.judge_rules.specs.Checks.{check_pending, lane_checks, first_failing, is_good};

use crate::Verdict;
use aes_modes::Key128;
use cemi_frames::Frame;
use key_tables::{Channel, Lane, Tables};
use knx_base::Number48;
use secure_apdu::{Secure, xor_number};

/// The service of data, in the control field.
pub(crate) const DATA: u8 = 0;

/// That of a request of a synchronisation.
pub(crate) const REQUEST: u8 = 2;

/// That of its answer.
pub(crate) const ANSWER: u8 = 3;

/// A secure frame that has a channel: its parts, and the channel with its key.
#[derive(Drop)]
pub(crate) struct Entered<'f, 't> {
    pub(crate) tables: &'t Tables,
    pub(crate) frame: Frame<'f>,
    pub(crate) secure: Secure<'f>,
    pub(crate) channel: Channel,
    pub(crate) key: &'t Key128,
    pub(crate) ghost passes: { first_failing (lane_checks tables.now (telegram frame)) ≡ None },
    pub(crate) ghost parts: { HasParts frame.content.now secure.field secure.shown secure.body.now },
    pub(crate) ghost faultless: { bad_secure frame.content.now (frame.control2 / 128 % 2 == 1) ≡ None },
    pub(crate) ghost on_channel: { channel_in tables.now (telegram frame) ≡ Some channel },
    pub(crate) ghost keyed: { key_of tables.now channel ≡ Some key.now },
}

/// A frame that fails a check before it has a lane, and the verdict on it.
#[derive(Drop)]
pub(crate) struct Refused<'f, 't> {
    pub(crate) tables: &'t Tables,
    pub(crate) frame: Frame<'f>,
    pub(crate) verdict: Verdict,
    pub(crate) ghost first: { first_failing (lane_checks tables.now (telegram frame)) ≡ Some verdict },
    pub(crate) ghost bad: { is_good verdict ≡ false },
}

impl Entered<'_, '_> {
    pub(crate) fn service(&self) -> u8
        ensures { result ≡ sync_service (telegram self.now.frame) }
    {
        self.secure.field & 0x07
    }

    pub(crate) fn is_encrypted(&self) -> bool
        ensures { result ≡ not (algorithm_of (field_in (telegram self.now.frame)) == 0) }
    {
        self.secure.field >> 4 & 0x07 != 0
    }

    pub(crate) fn lane(&self) -> Lane
        ensures { result ≡ lane_of self.now.channel (source_of (telegram self.now.frame)) }
    {
        self.channel.lane(self.frame.source)
    }

    /// The number under which the frame was sealed; None for an answer where no challenge is open.
    pub(crate) fn number(&self, asked: Option<[u8; 6]>) -> Option<Number48>
        ensures { MatchOption result
            (check_pending asked (telegram self.now.frame) ≡ Some Verdict.NoPending)
            (λ number. (check_pending asked (telegram self.now.frame) ≡ None)
            × (number ≡ number_in asked (telegram self.now.frame))) }
    {
        if self.service() != ANSWER {
            return Some(self.secure.shown);
        }
        match asked {
            Some(challenge) => Some(xor_number(challenge, self.secure.shown)),
            None => None,
        }
    }
}
