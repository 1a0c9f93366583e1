// One call's reading of its input.
ghost use Rattle.std.specs.Prelude.{◌≡◌, true, ◌≤◌, ◌<◌, length};
ghost use Rattle.frame.specs.Limits.{work_area};
ghost use Rattle.frame.specs.Header.{length_of};
ghost use Rattle.session.specs.Session.{read};
ghost use Rattle.channel.specs.Channel.{channel, fed_with, feed_of, shape};
ghost use Rattle.channel.specs.Steps.{receiver, put_from, answer_with, quiet_count, Held, part_with, byte_of, piece_of, ended_with};

use crate::{Channel, Fed};

// What a piece of the input comes to: how it ends, how many of its bytes are taken, and how many bytes are pending after it. It ends with
// 0 where the next piece goes on; with 5 before a byte that needs more output; with 11 where the frame is refused for its length; with 1
// where a whole frame is in the work area, and is to be judged.
// Stays a number: 0, 5 and 11 are feed's answer as they are (`piece_of` in specs/Steps.antt).
#[derive(Clone, Copy)]
struct Piece {
    number: u8,
    taken: usize,
    pending: usize,
}

// How many of left bytes can be put before one is judged.
fn quiet(pending: usize, work: &[u8], left: usize) -> usize
    requires { Held pending work.now }
    ensures { result ≡ quiet_count pending (length_of work.now) left }
{
    let mut most = 7;
    if 8 <= pending {
        most += frame::payload_length(work);
    }
    left.min(most - pending)
}

// Takes the eighth byte of a frame, or its last.
fn take_byte(pending: usize, work: &mut [u8], b: u8, room: usize) -> Piece
    requires { (7 ≤ pending) × (pending < length work.old) }
    ensures { part_with result work.new ≡ byte_of pending work.old b room }
{
    let size = frame::payload_length(&work[..]);
    if pending - 7 == size {
        if room < frame::LONGEST_RECORD {
            return Piece {
                number: 5,
                taken: 0,
                pending,
            };
        }
        work[pending] = b;
        return Piece {
            number: 1,
            taken: 1,
            pending: 0,
        };
    }
    work[pending] = b;
    if frame::MAX_PAYLOAD < size {
        return Piece {
            number: 11,
            taken: 1,
            pending: 0,
        };
    }
    Piece {
        number: 0,
        taken: 1,
        pending: 8,
    }
}

// Takes the bytes up to the next one that is judged, and that one.
fn take_piece(pending: usize, work: &mut [u8], rest: &[u8], room: usize) -> Piece
    requires { (work_area ≤ length work.old) × Held pending work.old }
    ensures { part_with result work.new ≡ piece_of pending work.old rest.now room }
{
    let q = quiet(pending, &work[..], rest.len());
    buffer::put(work, pending, &rest[..q]);
    let at = pending + q;
    if q == rest.len() {
        return Piece {
            number: 0,
            taken: q,
            pending: at,
        };
    }
    let last = take_byte(at, work, rest[q], room);
    Piece {
        taken: q + last.taken,
        ..last
    }
}

impl Channel {
    // The answer with this state, which a frame refused for its length makes dead.
    fn ended(self, number: u8, taken: usize, written: usize) -> Fed
        ensures { result ≡ answer_with (ended_with number self) number taken written }
    {
        let mut next = self;
        if number == 11 {
            next.dead = 11;
        }
        next.answer(number, taken, written)
    }

    // Reads the input, piece after piece. The state is handed over only where a whole frame is judged.
    fn read(self, work: &mut [u8], input: &[u8], out: &mut [u8]) -> Fed
        requires { (work_area ≤ length work.old) × (self.dead ≡ 0) × (shape (receiver self work.old) ≡ true) }
        ensures { fed_with result work.new out.new ≡ put_from out.old 0 (read channel (receiver self work.old) (length out.old) input.now) }
    {
        let mut next = self;
        let mut taken = 0;
        let mut written = 0;
        // Stays a loop: feed answers how many bytes it took, and a turn takes as many as its piece has.
        while taken < input.len() {
            let piece = take_piece(next.pending, work, &input[taken..], out.len() - written);
            taken += piece.taken;
            next.pending = piece.pending;
            let mut number = piece.number;
            if number == 1 {
                let judged = next.judge(work, out, written);
                written += judged.written;
                next = judged.channel;
                number = judged.number;
            }
            if number != 0 {
                return next.ended(number, taken, written);
            }
        }
        next.answer(0, taken, written)
    }

    // Whether rule 3 does not apply.
    fn is_shaped(self, work: &[u8]) -> bool
        ensures { result ≡ shape (receiver self work.now) }
    {
        if !self.is_plain() {
            return false;
        }
        if self.pending < 8 {
            return true;
        }
        let n = frame::payload_length(work);
        if frame::MAX_PAYLOAD < n {
            return false;
        }
        self.pending < 8 + n
    }

    // Takes bytes of the input and writes the records of the frames that they complete: 2, 3, the dead number or 1, and nothing changes;
    // else 0 at the input's end, 5 before a byte that needs more output, or the number of the frame refused.
    pub fn feed(self, work: &mut [u8], input: &[u8], out: &mut [u8]) -> Fed
        ensures { fed_with result work.new out.new ≡ feed_of self work.old input.now out.old }
    {
        if work.len() < frame::WORK_AREA {
            return self.answer(2, 0, 0);
        }
        if !self.is_shaped(&work[..]) {
            return self.answer(3, 0, 0);
        }
        if self.dead != 0 {
            return self.answer(self.dead, 0, 0);
        }
        if out.len() < frame::LONGEST_RECORD {
            return self.answer(1, 0, 0);
        }
        self.read(work, input, out)
    }
}
