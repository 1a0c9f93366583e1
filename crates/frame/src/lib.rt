// A frame's header and its settings payload.
#![tactic(auto)]

ghost use Rattle.std.specs.Prelude.{◌≡◌, [], length, get_or, ◌+◌, ◌<◌};
ghost use Rattle.buffer.specs.Bytes.{write};
ghost use Rattle.frame.specs.Header.{length_of, header_of, header_bytes};
ghost use Rattle.frame.specs.Frame.{framed, flag, begins, ends, is_new, is_more, data_follows, is_last, flags_fit};
ghost use Rattle.frame.specs.Settings.{is_identity};
ghost use Rattle.frame.specs.Records.{bit, request_record};

use cbor::Item;

// The sizes of document 01, as `Limits` of the definitions has them: the longest payload, command and record, the places for the frame
// under way, and the work area.
pub const MAX_PAYLOAD: usize = 65535;

pub const MAX_COMMAND: usize = 2048;

pub const LONGEST_RECORD: usize = 9 + MAX_PAYLOAD;

pub const FRAME_AREA: usize = 8 + MAX_PAYLOAD;

pub const WORK_AREA: usize = FRAME_AREA + 8 * MAX_COMMAND;

// The numbers of a frame's eight header bytes. The type is called kind here, for `type` is a word of the language.
// Stays numbers: a header may hold any, and rules 12 to 18 refuse them (`rules` in rules/specs/Rules.antt).
#[derive(Clone, Copy)]
pub struct Header {
    pub length: usize,
    pub request: u16,
    pub stream: u8,
    pub stream_flags: u8,
    pub kind: u8,
    pub flags: u8,
}

// Whether a flag of this value is set.
#[tactic(auto, unfolding(crate::specs::Frame::flag))]
fn is_set(value: u8, flags: u8) -> bool
    requires { 0 < value }
    ensures { result ≡ flag value flags }
{
    flags / value % 2 == 1
}

// The flags, by their names in document 01.
// Stays a method for each flag: each is a name of document 01 with a definition of its own, and its body is one call of `is_set`.
impl Header {
    #[tactic(auto, unfolding(crate::specs::Frame::begins))]
    pub fn begins(self) -> bool
        ensures { result ≡ begins (framed self []) }
    {
        is_set(0x01, self.stream_flags)
    }

    #[tactic(auto, unfolding(crate::specs::Frame::ends))]
    pub fn ends(self) -> bool
        ensures { result ≡ ends (framed self []) }
    {
        is_set(0x02, self.stream_flags)
    }

    #[tactic(auto, unfolding(crate::specs::Frame::is_new))]
    pub fn is_new(self) -> bool
        ensures { result ≡ is_new (framed self []) }
    {
        is_set(0x01, self.flags)
    }

    #[tactic(auto, unfolding(crate::specs::Frame::is_more))]
    pub fn is_more(self) -> bool
        ensures { result ≡ is_more (framed self []) }
    {
        is_set(0x04, self.flags)
    }

    #[tactic(auto, unfolding(crate::specs::Frame::data_follows))]
    pub fn data_follows(self) -> bool
        ensures { result ≡ data_follows (framed self []) }
    {
        is_set(0x08, self.flags)
    }

    #[tactic(auto, unfolding(crate::specs::Frame::is_last))]
    pub fn is_last(self) -> bool
        ensures { result ≡ is_last (framed self []) }
    {
        self.flags == 0x02
    }

    // Rule 18.
    #[tactic(auto, unfolding(crate::specs::Frame::is_type, crate::specs::Frame::flags_fit))]
    pub fn flags_fit(self) -> bool
        ensures { result ≡ flags_fit (framed self []) }
    {
        let kind = self.kind;
        let flags = self.flags;
        match kind {
            1 => (flags % 4 != 0) & (flags % 4 != 3),
            2 => (flags == 0x01) | (flags == 0x02),
            _ => flags == 0x02,
        }
    }
}

// The byte at a place, 0 where there is none.
pub fn byte_at(s: &[u8], i: usize) -> u8
    ensures { result ≡ get_or s.now i 0 }
{
    s.get(i).copied().unwrap_or(0)
}

// The payload length that a frame's first three bytes claim.
#[tactic(auto, unfolding(crate::specs::Header::length_of))]
pub fn payload_length(frame: &[u8]) -> usize
    ensures { result ≡ length_of frame.now }
{
    let bytes = [byte_at(frame, 0), byte_at(frame, 1), byte_at(frame, 2), 0];
    u32::from_le_bytes(bytes) as usize
}

// The header at the front of a frame.
#[tactic(auto, unfolding(crate::specs::Header::header_of))]
pub fn read_header(frame: &[u8]) -> Header
    ensures { result ≡ header_of frame.now }
{
    let length = payload_length(frame);
    let request = u16::from_le_bytes([byte_at(frame, 3), byte_at(frame, 4)]);
    let last = byte_at(frame, 7);
    Header {
        length,
        request,
        stream: byte_at(frame, 5),
        stream_flags: byte_at(frame, 6),
        kind: last / 16,
        flags: last % 16,
    }
}

// Puts a header's eight bytes into a buffer from a place on, as far as the buffer goes.
// Stays a buffer and a place: C lends the buffer whole, and frames stand one behind the other in it.
#[tactic(auto, unfolding(crate::specs::Header::header_bytes))]
pub fn put_header(out: &mut [u8], at: usize, h: Header)
    ensures { out.new ≡ write out.old at (header_bytes h) }
{
    let length = h.length.to_le_bytes();
    let request = h.request.to_le_bytes();
    let bytes = [
        length[0],
        length[1],
        length[2],
        request[0],
        request[1],
        h.stream,
        h.stream_flags,
        h.kind % 16 * 16 + h.flags % 16,
    ];
    buffer::put(out, at, &bytes);
}

// Whether a settings payload reads `identity`.
pub fn is_identity(payload: &[u8]) -> bool
    ensures { result ≡ is_identity payload.now }
{
    let Some(item) = cbor::read_item(payload, 0) else {
        return false;
    };
    let Item::Bytes(start, stop) = item else {
        return false;
    };
    if stop != payload.len() {
        return false;
    }
    keys::same_key(keys::part(payload, start, stop), b"identity")
}

// A bool as a bit.
pub fn bit(b: bool) -> u8
    ensures { result ≡ bit b }
{
    u8::from(b)
}

// Puts a request's record into the output from a place on, and answers its length: kind 1 with the data bit, the mark and a command, or
// kind 2 with the last bit and a payload. What does not fit is left out.
// Stays a buffer and a place: C lends the buffer whole, and records stand one behind the other in it.
// Stays numbers, the kind and the third byte: they are bytes of the layout, and `request_record` is of any.
pub fn put_record(
    out: &mut [u8],
    at: usize,
    kind: u16,
    request: u16,
    third: u8,
    bytes: &[u8],
) -> usize
    ensures { (result ≡ length (request_record kind request third bytes.now)) × (out.new ≡ write out.old at (request_record kind request third bytes.now)) }
{
    let body = bytes.len() + 3;
    if out.len() <= at {
        return body + 6;
    }
    let size = body.to_le_bytes();
    let kind = kind.to_le_bytes();
    let request = request.to_le_bytes();
    let head = [
        size[0], size[1], size[2], size[3], kind[0], kind[1], request[0], request[1], third,
    ];
    buffer::put(out, at, &head);
    buffer::put(out, at + 9, bytes);
    body + 6
}
