// The record under way in a log that comes in pieces. Its head has six bytes: the body's length in four, and two of kind.
ghost use Rattle.std.specs.Prelude.{◌≡◌, ◌-◌, ◌%◌, ◌<◌, ◌≤◌, min, ◌++◌, length, replicate, take};
ghost use Rattle.buffer.specs.Bytes.{write};
ghost use Rattle.logs.specs.Logs.{claimed};
ghost use Rattle.log_compare.specs.Partial.{is_none, head_in, under_way, takes};
ghost use Rattle.log_compare.specs.Steps.{is_over, lacks};

use crate::{Head, Partial, Piece};

impl Partial {
    // None is under way.
    pub(crate) fn none() -> Partial
        ensures { result ≡ record { head = replicate 6 0; held = 0; left = 0 } }
    {
        Partial {
            head: [0; 6],
            held: 0,
            left: 0,
        }
    }

    // Whether none is.
    pub(crate) fn is_none(self) -> bool
        ensures { result ≡ is_none (under_way self) }
    {
        self.left == 0 && self.held % 6 == 0
    }

    // How many bytes of a head are missing.
    pub(crate) fn missing(self) -> usize
        ensures { result ≡ lacks (under_way self) }
    {
        6 - self.held % 6
    }

    // Whether nothing is at hand of a head, nor held of it, and nothing follows.
    pub(crate) fn is_over(self, piece: Piece) -> bool
        ensures { result ≡ is_over piece.entry.is_last ((under_way self).head ++ piece.entry.bytes.now) }
    {
        piece.is_last && self.held % 6 == 0 && piece.bytes.is_empty()
    }

    // The bytes of a piece that a head lacks, as far as there are any.
    pub(crate) fn wanted(self, piece: &[u8]) -> &[u8]
        ensures { result.now ≡ take (min (lacks (under_way self)) (length piece.now)) piece.now }
    {
        front(piece, self.missing() as u64)
    }

    // The bytes of a piece that are held, where a head cannot be whole yet: all but its last byte.
    pub(crate) fn waiting(self, piece: &[u8]) -> &[u8]
        ensures { result.now ≡ take (min (5 - length (under_way self).head) (length piece.now)) piece.now }
    {
        front(piece, (self.missing() - 1) as u64)
    }

    // The bytes of a piece that the body under way goes on with.
    pub(crate) fn body(self, piece: &[u8]) -> &[u8]
        ensures { result.now ≡ take (min self.left (length piece.now)) piece.now }
    {
        front(piece, self.left)
    }

    // The bytes held of the head, and more behind these, as far as six go.
    fn joined(self, bytes: &[u8]) -> [u8; 6]
        ensures { result ≡ write self.head (self.held % 6) bytes.now }
    {
        let mut head = self.head;
        buffer::put(&mut head, self.held % 6, bytes);
        head
    }

    // The head that the bytes held and these make, if it is whole.
    pub(crate) fn head_at(self, bytes: &[u8]) -> Option<Head>
        ensures { result ≡ head_in ((under_way self).head ++ bytes.now) }
    {
        if bytes.len() < self.missing() {
            return None;
        }
        let head = self.joined(bytes);
        Some(Head {
            length: body_length(&head),
            low: head[4],
            high: head[5],
        })
    }

    // What is under way when these bytes are taken.
    pub(crate) fn taken(self, bytes: &[u8]) -> Partial
        ensures { under_way result ≡ takes (under_way self) bytes.now }
    {
        if 0 < self.left {
            return Partial {
                left: self.left.saturating_sub(bytes.len() as u64),
                ..self
            };
        }
        let head = self.joined(bytes);
        if bytes.len() < self.missing() {
            return Partial {
                head,
                held: self.held % 6 + bytes.len(),
                left: 0,
            };
        }
        Partial {
            head,
            held: 0,
            left: body_length(&head),
        }
    }
}

// The body's length that a head tells.
fn body_length(head: &[u8; 6]) -> u64
    ensures { result ≡ claimed 4 head.now }
{
    u64::from(u32::from_le_bytes([head[0], head[1], head[2], head[3]]))
}

// The first n bytes, as far as there are any.
pub(crate) fn front(bytes: &[u8], n: u64) -> &[u8]
    ensures { result.now ≡ take (min n (length bytes.now)) bytes.now }
{
    &bytes[..n.min(bytes.len() as u64) as usize]
}
