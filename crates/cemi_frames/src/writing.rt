ghost use Rattle.std.specs.Prelude.{◌≡◌, ◌+◌, ◌<◌, ◌≤◌, [], ◌∷◌, ◌++◌, length, take, drop, false};
ghost use Rattle.cemi_frames.specs.Fields.{long_octets, standard_octets, checked, message};
ghost use Rattle.cemi_frames.specs.Frames.{IsFrame};
ghost use Rattle.cemi_frames.specs.Writing.{parts_of, fields_of, data_octets, raw_octets, written_frame, written_control, written_control2};

use crate::frame::Code;
use crate::reading::check_of;
use knx_base::IndAddr;

/// What a frame is written from.
#[derive(Clone, Copy, Debug, PartialEq, Eq)]
pub struct FrameParts<'a> {
    pub source: IndAddr,
    pub destination: u16,
    /// Whether the destination is a group.
    pub group: bool,
    /// The octet of transport control and what stands after it, 1 to 255 octets.
    pub content: &'a [u8],
}

/// Writes an L_Data.ind message of low priority and hop count 6 to the front of `out`, and returns its length.
pub fn write_ldata(parts: &FrameParts<'_>, out: &mut [u8]) -> usize
    requires not_empty { 0 < length parts.now.content.now }
    requires fits { length parts.now.content.now ≤ 255 }
    requires room { length parts.now.content.now + 9 ≤ length out.old }

    ensures length { result ≡ length parts.now.content.now + 9 }
    ensures octets { out.new ≡ data_octets (parts_of parts.now) ++ drop result out.old }
    ensures reads_back { IsFrame (data_octets (parts_of parts.now)) (written_frame Code.Ind (parts_of parts.now)) }
{
    let after = put(&[0x29, 0], 0, out);
    let after = put(&long_header(parts), after, out);
    put(parts.content, after, out)
}

/// Writes an L_Busmon.ind message to the front of `out`, with a raw frame of low priority and hop count 6: a standard
/// one for up to 16 octets of content, else an extended one. Returns its length.
pub fn write_busmon(parts: &FrameParts<'_>, out: &mut [u8]) -> usize
    requires not_empty { 0 < length parts.now.content.now }
    requires fits { length parts.now.content.now ≤ 255 }
    requires room { length parts.now.content.now + 10 ≤ length out.old }

    ensures length { result ≡ length (raw_octets (parts_of parts.now)) }
    ensures octets { out.new ≡ raw_octets (parts_of parts.now) ++ drop result out.old }
    ensures reads_back { IsFrame (raw_octets (parts_of parts.now)) (written_frame Code.Busmon (parts_of parts.now)) }
{
    if parts.content.len() <= 16 {
        write_raw(&standard_header(parts), parts.content, out)
    } else {
        write_raw(&long_header(parts), parts.content, out)
    }
}

fn write_raw(header: &[u8], content: &[u8], out: &mut [u8]) -> usize
    requires room { length header.now + length content.now + 3 ≤ length out.old }
    ensures length { result ≡ length header.now + length content.now + 3 }
    ensures octets { out.new ≡ message 0x2b [] (checked (header.now ++ content.now)) ++ drop result out.old }
{
    let after = put(&[0x2b, 0], 0, out);
    let after = put(header, after, out);
    let after = put(content, after, out);
    let check = check_of(&out[2..after]);
    put(&[check], after, out)
}

// What stands before the content of a message of data, and of an extended frame.
#[tactic(auto, unfolding(crate::specs::Fields::long_octets))]
fn long_header(parts: &FrameParts<'_>) -> [u8; 7]
    requires not_empty { 0 < length parts.now.content.now }
    requires fits { length parts.now.content.now ≤ 255 }
    ensures { result ++ parts.now.content.now ≡ long_octets (fields_of (parts_of parts.now)) }
{
    let [s1, s0] = parts.source.0.to_be_bytes();
    let [d1, d0] = parts.destination.to_be_bytes();
    let size = parts.content.len();
    [
        control_of(size),
        control2_of(parts.group),
        s1,
        s0,
        d1,
        d0,
        (size - 1) as u8,
    ]
}

// What stands before the content of a standard frame.
#[tactic(auto, unfolding(crate::specs::Fields::standard_octets))]
fn standard_header(parts: &FrameParts<'_>) -> [u8; 6]
    requires not_empty { 0 < length parts.now.content.now }
    requires fits { length parts.now.content.now ≤ 16 }
    ensures { result ++ parts.now.content.now ≡ standard_octets (fields_of (parts_of parts.now)) }
{
    let [s1, s0] = parts.source.0.to_be_bytes();
    let [d1, d0] = parts.destination.to_be_bytes();
    let size = parts.content.len();
    [
        control_of(size),
        s1,
        s0,
        d1,
        d0,
        control2_of(parts.group) | (size - 1) as u8,
    ]
}

fn control_of(size: usize) -> u8
    ensures { result ≡ written_control size }
{
    if size <= 16 { 0xbc } else { 0x3c }
}

fn control2_of(group: bool) -> u8
    ensures { result ≡ written_control2 group }
{
    if group { 0xe0 } else { 0x60 }
}

// Writes the octets from the place `at` on, and returns the place after them.
fn put(octets: &[u8], at: usize, out: &mut [u8]) -> usize
    requires room { at + length octets.now ≤ length out.old }
    ensures next { result ≡ at + length octets.now }
    ensures front { take result out.new ≡ take at out.old ++ octets.now }
    ensures rest { drop result out.new ≡ drop result out.old }
{
    let after = at + octets.len();
    out[at..after].copy_from_slice(octets);
    after
}
