// The frames that carry a command and its data.
ghost use Rattle.std.specs.Prelude.{◌≡◌, ◌+◌, ◌*◌, ◌≤◌, ◌<◌, length, is_some};
ghost use Rattle.buffer.specs.Bytes.{write};
ghost use Rattle.frame.specs.Frame.{header_for, frame_bytes};
ghost use Rattle.sender.specs.Frames.{flag_if, stream_flags, command_flags, data_flags, full_frames, message_frames};
ghost use Rattle.sender.specs.Send.{answered, data_bytes, frames_into};
ghost use Rattle.sender.specs.Steps.{frame_for, type_bytes, room_left};

use crate::{Refusal, Wishes};
use frame::Header;

// The type of a frame: a command's, before data or not, or its data's.
#[derive(Clone, Copy)]
enum Kind {
    Command { with_data: bool },
    Data,
}

// The frames of one type, and how they are sent.
#[derive(Clone, Copy)]
struct Frames {
    how: Wishes,
    kind: Kind,
}

// A flag's value where it is set.
fn flag_if(value: u8, is_set: bool) -> u8
    ensures { result ≡ flag_if value is_set }
{
    if is_set { value } else { 0 }
}

#[tactic(auto, unfolding(crate::specs::Frames::stream_flags))]
fn stream_flags(begin: bool, end: bool) -> u8
    ensures { result ≡ stream_flags begin end }
{
    flag_if(0x01, begin) + flag_if(0x02, end)
}

#[tactic(auto, unfolding(crate::specs::Frames::command_flags))]
fn command_flags(with_data: bool, first: bool, last: bool) -> u8
    ensures { result ≡ command_flags with_data first last }
{
    let kind: u8 = if first { 0x01 } else { 0x02 };
    kind + flag_if(0x04, !last) + flag_if(0x08, with_data)
}

#[tactic(auto, unfolding(crate::specs::Frames::data_flags))]
fn data_flags(last: bool) -> u8
    ensures { result ≡ data_flags last }
{
    if last { 0x02 } else { 0x01 }
}

// Stays `out` and `at` in each: `buffer::put` and `frame::put_header` take them so.
impl Frames {
    // The header of a frame that is the first of its type or not, and the last or not.
    fn header(self, first: bool, last: bool, payload: &[u8]) -> Header
        ensures { result ≡ header_for (frame_for self first last payload.now) }
    {
        let how = self.how;
        let (kind, begin, end, flags) = match self.kind {
            Kind::Command { with_data } => (
                1,
                first & how.begin,
                last & !with_data & how.end,
                command_flags(with_data, first, last),
            ),
            Kind::Data => (2, false, last & how.end, data_flags(last)),
        };
        Header {
            length: payload.len(),
            request: how.request,
            stream: how.stream,
            stream_flags: stream_flags(begin, end),
            kind,
            flags,
        }
    }

    // Puts a frame into the output from a place on, and answers its length.
    fn put_frame(self, out: &mut [u8], at: usize, first: bool, last: bool, payload: &[u8]) -> usize
        requires { at + (length payload.now + 8) ≤ length out.old }
        ensures { (result ≡ length payload.now + 8) × (out.new ≡ write out.old at (frame_bytes (frame_for self first last payload.now))) }
    {
        frame::put_header(out, at, self.header(first, last, payload));
        buffer::put(out, at + 8, payload);
        payload.len() + 8
    }

    // Puts the frames of these bytes, `full` full ones and the last, into the output from a place on, and answers the place behind them.
    fn put(self, out: &mut [u8], at: usize, full: usize, bytes: &[u8]) -> usize
        requires { (full * self.how.size ≤ length bytes.now) × (at + length (type_bytes self full bytes.now) ≤ length out.old) }
        ensures { (result ≡ at + length (type_bytes self full bytes.now)) × (out.new ≡ write out.old at (type_bytes self full bytes.now)) }
    {
        let size = self.how.size;
        let mut q = at;
        for i in 0..full {
            let p = i * size;
            q += self.put_frame(out, q, i == 0, false, &bytes[p..p + size]);
        }
        q + self.put_frame(out, q, full == 0, true, &bytes[full * size..])
    }
}

// How many full frames go before the last of n bytes.
#[tactic(auto, unfolding(crate::specs::Frames::full_frames))]
fn full_frames(size: usize, n: usize) -> usize
    requires { 0 < size }
    ensures { result ≡ full_frames size n }
{
    n.saturating_sub(1) / size
}

// How much of the room is left behind the frames of n bytes, `full` full ones and the last. With size 1 their total is nine times the length
// and can pass 2^64, so it is not added up: of what the bytes leave, each frame takes eight for its header.
fn room_left(room: usize, full: usize, n: usize) -> Option<usize>
    ensures { result ≡ room_left room full n }
{
    let rest = room.checked_sub(n)?;
    let eights = (rest / 8).checked_sub(full)?.checked_sub(1)?;
    Some(8 * eights + rest % 8)
}

// Puts a command's frames and those of its data into the output, or refuses where they have no room.
pub(crate) fn put_message(
    out: &mut [u8],
    how: Wishes,
    command: &[u8],
    data: Option<&[u8]>,
) -> Result<usize, Refusal>
    requires { 0 < how.size }
    ensures { answered result out.new ≡ frames_into (message_frames how command.now (is_some «data».entry) (data_bytes «data».entry)) out.old }
{
    let full = full_frames(how.size, command.len());
    let left = room_left(out.len(), full, command.len()).ok_or(Refusal::ShortOutput)?;
    let with_data = data.is_some();
    let frames = Frames {
        how,
        kind: Kind::Command { with_data },
    };
    let Some(data) = data else {
        return Ok(frames.put(out, 0, full, command));
    };
    let data_full = full_frames(how.size, data.len());
    room_left(left, data_full, data.len()).ok_or(Refusal::ShortOutput)?;
    let at = frames.put(out, 0, full, command);
    let data_frames = Frames {
        how,
        kind: Kind::Data,
    };
    Ok(data_frames.put(out, at, data_full, data))
}
