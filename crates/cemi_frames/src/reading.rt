ghost use Rattle.std.specs.Prelude.{◌≡◌, ℕ, ◌+◌, ◌<◌, ◌≤◌, [], ◌∷◌, length, take, MatchResult, MatchOption, true, false, IfOk, None, Some, slice_index};
ghost use Rattle.cemi_frames.specs.Fields.{check_octet};
ghost use Rattle.cemi_frames.specs.Frames.{Telegram, IsFrame, telegram};
ghost use Rattle.cemi_frames.specs.Faults.{frame_fault, misfit, first_of, head_tests, data_tests, standard_tests, extended_tests, raw_tests, body_of, check_test, after_tests, is_code};
ghost use Rattle.cemi_frames.specs.Reading.{Reads, IsMisfit, FitsRow, code_at, data_frame, standard_frame, extended_frame, raw_frame, frame_at, frame_from, marked, content_place, StandsAt};

use crate::frame::{Code, Frame, NotFrame};
use knx_base::IndAddr;

/// The frame that the octets are, or the first fault. The frame's content is a part of the octets.
pub fn read_frame(octets: &[u8]) -> Result<Frame<'_>, NotFrame>
    // The first fault in the order of the octets, or the fields by their places.
    ensures exact { Reads result (frame_fault octets.now) (frame_at octets.now) }

    // What is read is a frame by its case, and such a frame is read.
    ensures frame { IfOk result (λ found. IsFrame octets.now (telegram found)) }
    ensures only { (t : Telegram) → IsFrame octets.now t → MatchResult result (λ found. telegram found ≡ t) (λ _. ⊥) }

    ensures content { IfOk result (λ found. StandsAt octets.now (content_place octets.now) found.content.now) }
{
    read_parts(octets)
}

fn read_parts(octets: &[u8]) -> Result<Frame<'_>, NotFrame>
    ensures exact { Reads result (frame_fault octets.now) (frame_at octets.now) }
{
    let (code, body) = read_head(octets)?;
    match code {
        Code::Busmon => read_raw(body, octets.len()),
        _ => read_data(code, body, octets.len()),
    }
}

// The message code, and what stands after the additional information.
#[tactic(auto, unfolding(crate::specs::Faults::head_tests))]
fn read_head(octets: &[u8]) -> Result<(Code, &[u8]), NotFrame>
    ensures head { MatchResult result
        (λ head. (first_of (head_tests octets.now) ≡ None)
        × (head.0 ≡ code_at (slice_index octets.now 0))
        × (head.1.now ≡ body_of octets.now))
        (λ e. first_of (head_tests octets.now) ≡ Some e) }
{
    let [first, after @ ..] = octets else {
        return Err(NotFrame::Short(0));
    };
    let Some(code) = code_of(*first) else {
        return Err(NotFrame::Code(*first));
    };
    let [size, after @ ..] = after else {
        return Err(NotFrame::Short(1));
    };
    let size = *size as usize;
    if after.len() < size {
        return Err(NotFrame::Short(octets.len()));
    }
    let (info, body) = after.split_at(size);
    match row_misfit(info) {
        Some(place) => Err(NotFrame::Info(place)),
        None => Ok((code, body)),
    }
}

fn code_of(octet: u8) -> Option<Code>
    ensures { MatchOption result
        (is_code octet ≡ false)
        (λ code. (is_code octet ≡ true) × (code ≡ code_at octet)) }
{
    match octet {
        0x11 => Some(Code::Req),
        0x29 => Some(Code::Ind),
        0x2e => Some(Code::Con),
        0x2b => Some(Code::Busmon),
        _ => None,
    }
}

// The place of the first row that does not fit, where additional information begins at place 2.
fn row_misfit(info: &[u8]) -> Option<usize>
    ensures { result ≡ misfit (length info.now) 2 info.now }
{
    let mut rest = info;
    while !rest.is_empty() {
        let Some(size) = row_size(rest) else {
            return Some(2 + (info.len() - rest.len()));
        };
        rest = &rest[size..];
    }
    None
}

// The octets of the row at the front, if it fits.
fn row_size(info: &[u8]) -> Option<usize>
    requires { 0 < length info.now }
    ensures { MatchOption result (IsMisfit info.now) (λ size. FitsRow info.now size) }
{
    let [_, size, ..] = info else {
        return None;
    };
    let size = *size as usize + 2;
    if info.len() < size {
        return None;
    }
    Some(size)
}

// A message of data.
#[tactic(auto, unfolding(crate::specs::Faults::data_tests))]
fn read_data(code: Code, body: &[u8], whole: usize) -> Result<Frame<'_>, NotFrame>
    ensures { Reads result (first_of (data_tests whole body.now)) (data_frame code body.now) }
{
    let [control, control2, s1, s0, d1, d0, length, content @ ..] = body else {
        return Err(NotFrame::Short(whole));
    };
    let size = content_size(*length)?;
    if content.len() != size {
        return Err(NotFrame::Length(size, content.len()));
    }
    let addresses = [*s1, *s0, *d1, *d0];
    Ok(frame_of(code, *control, *control2, addresses, content))
}

// A raw frame.
#[tactic(auto, unfolding(crate::specs::Faults::raw_tests, crate::specs::Reading::raw_frame))]
fn read_raw(raw: &[u8], whole: usize) -> Result<Frame<'_>, NotFrame>
    ensures { Reads result (first_of (raw_tests whole raw.now)) (raw_frame raw.now) }
{
    match raw {
        [] => Err(NotFrame::Short(whole)),
        [answer] => Err(NotFrame::Acknowledge(*answer)),
        [control, ..] => match *control >> 6 {
            2 => read_standard(raw, whole),
            0 => read_extended(raw, whole),
            _ => Err(NotFrame::Format(*control)),
        },
    }
}

#[tactic(auto, unfolding(crate::specs::Faults::standard_tests))]
fn read_standard(raw: &[u8], whole: usize) -> Result<Frame<'_>, NotFrame>
    ensures { Reads result (first_of (standard_tests whole raw.now)) (standard_frame raw.now) }
{
    let [control, s1, s0, d1, d0, shared, after @ ..] = raw else {
        return Err(NotFrame::Short(whole));
    };
    let content = checked_content(raw, after, (*shared & 0x0f) as usize + 1)?;
    let addresses = [*s1, *s0, *d1, *d0];
    Ok(frame_of(Code::Busmon, *control, *shared & 0xf0, addresses, content))
}

#[tactic(auto, unfolding(crate::specs::Faults::extended_tests))]
fn read_extended(raw: &[u8], whole: usize) -> Result<Frame<'_>, NotFrame>
    ensures { Reads result (first_of (extended_tests whole raw.now)) (extended_frame raw.now) }
{
    let [control, control2, s1, s0, d1, d0, length, after @ ..] = raw else {
        return Err(NotFrame::Short(whole));
    };
    let content = checked_content(raw, after, content_size(*length)?)?;
    let addresses = [*s1, *s0, *d1, *d0];
    Ok(frame_of(Code::Busmon, *control, *control2, addresses, content))
}

// A length octet counts the octets of the content after the first one.
fn content_size(length: u8) -> Result<usize, NotFrame>
    ensures { MatchResult result
        (λ size. (length < 255) × (size ≡ length + 1))
        (λ e. (length ≡ 255) × (e ≡ NotFrame.Escape)) }
{
    if length == 255 {
        return Err(NotFrame::Escape);
    }
    Ok(length as usize + 1)
}

// After the header stand the content and the check octet of all octets before it.
fn checked_content<'a>(raw: &[u8], after: &'a [u8], size: usize) -> Result<&'a [u8], NotFrame>
    requires some { 0 < length raw.now }
    requires fits { size ≤ 255 }
    ensures { MatchResult result
        (λ content. (first_of (after_tests raw.now after.entry.now size) ≡ None)
        × (size + 1 ≡ length after.entry.now)
        × (content.now ≡ take size after.entry.now))
        (λ e. first_of (after_tests raw.now after.entry.now size) ≡ Some e) }
{
    if after.len() != size + 1 {
        return Err(NotFrame::Length(size + 1, after.len()));
    }
    test_check(raw)?;
    Ok(&after[..size])
}

fn frame_of(code: Code, control: u8, control2: u8, addresses: [u8; 4], content: &[u8]) -> Frame<'_>
    requires not_empty { 0 < length content.now }
    requires fits { length content.now ≤ 255 }
    ensures { telegram result ≡ frame_from code control control2 addresses content.now }
{
    let [s1, s0, d1, d0] = addresses;
    Frame {
        code,
        repeated: is_repeated(code, control),
        priority: control >> 2 & 3,
        control2,
        source: IndAddr(u16::from_be_bytes([s1, s0])),
        destination: u16::from_be_bytes([d1, d0]),
        content,
    }
}

// Bit 5 marks a repetition, in what was received.
fn is_repeated(code: Code, control: u8) -> bool
    ensures { result ≡ marked code control }
{
    matches!(code, Code::Ind | Code::Busmon) && control >> 5 & 1 == 0
}

// The last octet is the check octet of those before it.
fn test_check(raw: &[u8]) -> Result<(), NotFrame>
    requires { 0 < length raw.now }
    ensures { MatchResult result
        (λ _. first_of (check_test raw.now ∷ []) ≡ None)
        (λ e. first_of (check_test raw.now ∷ []) ≡ Some e) }
{
    let last = raw.len() - 1;
    let computed = check_of(&raw[..last]);
    if raw[last] != computed {
        return Err(NotFrame::Check(raw[last], computed));
    }
    Ok(())
}

/// The complement of the exclusive or of the octets.
#[tactic(auto, unfolding(crate::specs::Fields::check_octet))]
pub(crate) fn check_of(raw: &[u8]) -> u8
    ensures { result ≡ check_octet raw.now }
{
    !raw.iter().fold(0, |sum, octet| sum ^ octet)
}
