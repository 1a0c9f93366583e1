// The bytes at hand of a log that is compared.
ghost use Rattle.std.specs.Prelude.{◌≤◌};
ghost use Rattle.logdiff.specs.Sizes.{room_length};

use std::fs::File;

// As many bytes are read at a time.
pub(crate) const ROOM: usize = 131072;

pub(crate) type Room = [u8; ROOM];

// The bytes at hand stand in the room from one place up to another. Behind them the log goes on in its file at `place`, with so many bytes
// left.
// Stays two places: a slice of the room would keep it lent while the next piece is read into it.
#[derive(Clone, Copy)]
pub(crate) struct Window<'a> {
    pub(crate) file: &'a File,
    pub(crate) place: u64,
    pub(crate) left: u64,
    pub(crate) from: usize,
    pub(crate) to: usize,
    ghost ordered: { from ≤ to },
    ghost inside: { to ≤ room_length },
}
