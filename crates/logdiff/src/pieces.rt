// A log that is compared is read again in pieces, each over the one before.
ghost use Rattle.std.specs.Prelude.{◌≡◌, ◌≤◌, ◌==◌};
ghost use Rattle.std.specs.Io.{ReadsAtMost};
ghost use Rattle.logdiff.specs.Turns.{Begun, Filled, Passed, at_hand};

use crate::through::Log;
use crate::window::{Room, Window};
use files::Unread;
use log_compare::Piece;
use std::fs::File;
use std::os::unix::fs::FileExt;

impl<'a> Window<'a> {
    // Before the first byte.
    pub(crate) fn start(log: &'a Log) -> Window<'a>
        ensures { Begun log.now result }
    {
        Window {
            file: &log.file,
            place: 0,
            left: log.length,
            from: 0,
            to: 0,
        }
    }

    // Whether nothing is at hand.
    pub(crate) fn is_empty(self) -> bool
        ensures { result ≡ (self.entry.from == self.entry.to) }
    {
        self.from == self.to
    }

    // Whether nothing is at hand, though something is left.
    pub(crate) fn is_dry(self) -> bool {
        self.from == self.to && self.left != 0
    }

    // Whether less is left of the log, with what is at hand, than so many bytes.
    pub(crate) fn is_short(self, n: u64) -> bool {
        ((self.to - self.from) as u64) < n.saturating_sub(self.left)
    }

    // What is at hand.
    pub(crate) fn piece<'b>(self, room: &'b Room) -> Piece<'b>
        ensures { (result.bytes.now ≡ at_hand room.now self.entry) × (result.is_last ≡ (self.entry.left == 0)) }
    {
        Piece {
            bytes: &room[self.from..self.to],
            is_last: self.left == 0,
        }
    }

    // With the next piece, where nothing is at hand and something is left. A read that brings no byte, or fails, leaves nothing at hand.
    pub(crate) fn filled(self, room: &mut Room) -> Window<'a>
        ensures { Filled self.entry room.old result room.new }
    {
        if self.from < self.to || self.left == 0 {
            return self;
        }
        // Stays field by field: a struct with a ghost field takes no `..`.
        let got = read_at(self.file, self.place, room).unwrap_or(0);
        let n = self.left.min(got as u64) as usize;
        Window {
            file: self.file,
            place: self.place.wrapping_add(n as u64),
            left: self.left - n as u64,
            from: 0,
            to: n,
        }
    }

    // With so many bytes of those at hand taken.
    // Stays field by field: a struct with a ghost field takes no `..`.
    pub(crate) fn taken(self, n: usize) -> Window<'a>
        ensures { Passed self.entry n result }
    {
        Window {
            file: self.file,
            place: self.place,
            left: self.left,
            from: self.from + n.min(self.to - self.from),
            to: self.to,
        }
    }
}

// One read of a file by place, to the front of a room, and how many bytes came. A place that no offset of the system is, past the largest, the
// system refuses.
pub(crate) fn read_at(file: &File, place: u64, room: &mut [u8]) -> Result<usize, Unread>
    ensures { ReadsAtMost result room.new }
{
    Ok(file.read_at(room, place)?)
}
