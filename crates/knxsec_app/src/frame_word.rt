ghost use Rattle.std.specs.Prelude.{◌≡◌, ℕ, ◌≤◌, List, take, Option};
ghost use Rattle.knxsec_app.specs.Words.{octets_between};

use std::marker::Model;

/// How many octets the word of a frame may write.
pub(crate) const FRAME_ROOM: usize = 1024;

/// The octets of a frame, as a word writes them in hexadecimal. A contract sees it as these octets.
#[derive(Drop)]
pub(crate) struct FrameWord {
    store: [u8; FRAME_ROOM],
    len: usize,
}

impl Model for FrameWord {
    ghost Value = { List ℕ };

    ghost view = { λ f. take f.len f.store };

    ghost invariant = { λ f. f.len ≤ 1024 };
}

impl FrameWord {
    pub(crate) fn read(word: &str) -> Option<FrameWord>
        ensures octets { result ≡ octets_between 1 1024 word.now }
    {
        let len = word.len() / 2;
        if len < 1 || len > FRAME_ROOM {
            return None;
        }
        let mut store = [0; FRAME_ROOM];
        match hex::decode_to_slice(word, &mut store[..len]) {
            Ok(()) => Some(FrameWord { store, len }),
            Err(_) => None,
        }
    }

    pub(crate) fn bytes(&self) -> &[u8]
        ensures octets { result.now ≡ self.now }
    {
        &self.store[..self.len]
    }
}
