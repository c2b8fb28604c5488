ghost use Rattle.std.specs.Prelude.{◌≡◌, ◌≤◌, ◌<◌, ◌/◌, ◌%◌, length, slice_get, IfSome};
ghost use Rattle.seq_store.specs.Layout.{most_lanes};
ghost use Rattle.cemi_frames.specs.Frames.{telegram};
ghost use Rattle.node_core.specs.Node.{config_state};
ghost use Rattle.node_core.specs.Receiving.{addressee};
ghost use Rattle.node_core.specs.Sending.{group_field, device_channel, data_field};
ghost use Rattle.node_core.specs.Standing.{place_in};

use crate::Config;
use crate::outcome::Addressee;
use cemi_frames::Frame;
use group_objects::ObjectRow;
use key_tables::{Channel, Lane, Level};
use knx_base::{GroupAddr, IndAddr};

impl Config {
    /// The lanes on which a node of this configuration keeps marks, in the order in which its memory has them.
    pub fn lanes(&self) -> &[Lane]
        ensures lanes { result.now ≡ (config_state self.now).lanes }
        ensures few { length result.now ≤ most_lanes }
    {
        self.lanes.as_slice()
    }

    // The place of a lane's mark.
    pub(crate) fn place(&self, lane: Lane) -> Option<usize>
        ensures place { result ≡ place_in (config_state self.now) lane }
        ensures in_range { IfSome result (λ place. place < length (config_state self.now).lanes) }
    {
        self.lanes.place(lane)
    }

    pub(crate) fn row(&self, object: usize) -> Option<ObjectRow>
        ensures row { result ≡ slice_get (config_state self.now).objects object }
    {
        Some(*self.objects.row(object)?)
    }

    // Whom a frame is for.
    pub(crate) fn addressee(&self, frame: &Frame<'_>) -> Option<Addressee>
        ensures addressee { result ≡ addressee (config_state self.now) (telegram frame.now) }
    {
        if frame.is_group() {
            let object = self.objects.find(GroupAddr(frame.destination))?;
            return Some(Addressee::Object(object));
        }
        if frame.destination == self.address.0 {
            Some(Addressee::Device)
        } else {
            None
        }
    }

    // The control field of data for a group.
    pub(crate) fn group_field(&self, group: GroupAddr) -> u8
        ensures field { result ≡ group_field (config_state self.now) group }
        ensures algorithm { result / 16 % 8 ≤ 1 }
    {
        match self.tables.level(Channel::Group(group)) {
            Some(Level::Conf) => 0x10,
            _ => 0x00,
        }
    }

    // The channel of a telegram from the node to a device.
    pub(crate) fn device_channel(&self, to: IndAddr) -> Option<Channel>
        ensures channel { result ≡ device_channel (config_state self.now) to }
    {
        self.tables.channel_of(false, true, self.address, to.0)
    }
}
