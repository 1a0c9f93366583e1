// Items of the CBOR subset in the diagnostic notation of RFC 7049, section 6, with byte strings as text where RFC 8610, appendix G.2, lets
// them be. One loop walks over the items, with a stack of the containers that are open; eight are as many as the check lets nest. Bytes
// that do not pass the check end the walk.
ghost use Rattle.std.specs.Prelude.{◌≡◌, ◌+◌, ◌<◌, length, OnSome};
ghost use Rattle.arrayvec.specs.ArrayVec.{array_vec_len};
ghost use Rattle.receive.specs.Nearer.{distance};

use crate::line::Text;
use arrayvec::ArrayVec;
use cbor::Item;

// How a byte string is written: as text in quotes where each byte can stand there as it is, in hex otherwise.
#[derive(Clone, Copy, PartialEq, Eq)]
pub(crate) enum Form {
    Text,
    Hex,
}

impl Form {
    // The form of a byte string, which is text where it has no byte.
    pub(crate) fn of(bytes: &[u8]) -> Form {
        if bytes.iter().all(|b| is_plain(*b)) {
            Form::Text
        } else {
            Form::Hex
        }
    }

    // What a byte string begins with, up to the quote.
    pub(crate) fn start(self) -> &'static [u8] {
        match self {
            Form::Text => b"'",
            Form::Hex => b"h'",
        }
    }

    // Puts what stands between the quotes of a byte string, or a part of it.
    pub(crate) fn put_content(self, bytes: &[u8], line: &mut Text) {
        match self {
            Form::Text => line.put(bytes),
            Form::Hex => line.put_hex(bytes),
        }
    }
}

// Whether a byte is printable ASCII, but no quote and no backslash, which would have to be escaped.
fn is_plain(b: u8) -> bool {
    match b {
        b'\'' | b'\\' => false,
        _ => matches!(b, b' '..=b'~'),
    }
}

#[derive(Clone, Copy, Default, PartialEq, Eq)]
enum Kind {
    #[default]
    Array,
    Set,
    Map,
}

impl Kind {
    fn start(self) -> &'static [u8] {
        match self {
            Kind::Array => b"[",
            Kind::Set => b"258([",
            Kind::Map => b"{",
        }
    }

    fn end(self) -> &'static [u8] {
        match self {
            Kind::Array => b"]",
            Kind::Set => b"])",
            Kind::Map => b"}",
        }
    }
}

// An open container, and how many items are left: in a map two for each pair, the key and its value.
#[derive(Clone, Copy, Default)]
struct Open {
    kind: Kind,
    left: u64,
}

impl Open {
    // A container of so many elements or pairs, before its first item. A map of bytes that pass the check has far fewer than 2^63 pairs.
    fn of(kind: Kind, count: u64) -> Open {
        match kind {
            Kind::Map => Open {
                kind,
                left: count.wrapping_add(count),
            },
            _ => Open { kind, left: count },
        }
    }

    // What stands before the next item, where one is left. Before a map's value that is a colon: with it an odd number of items is left.
    fn separator(self) -> &'static [u8] {
        if self.left == 0 {
            return b"";
        }
        if self.kind == Kind::Map && self.left % 2 == 1 {
            return b": ";
        }
        b", "
    }
}

// The position of the next item, the container that it stands in, and the containers around that one, the outermost first.
#[derive(Drop)]
struct Walk {
    at: usize,
    inner: Open,
    outer: ArrayVec<Open, 7>,
}

impl Walk {
    // The end of a container with nothing left, or the next item. None where the walk ends: behind the outermost container, or at bytes
    // that do not pass the check.
    fn step(&mut self, s: &[u8], line: &mut Text) -> Option<()>
        ensures { OnSome result (distance (length s.now) self.new < distance (length s.now) self.old) }
    {
        if self.inner.left == 0 {
            return self.leave(line);
        }
        self.inner.left -= 1;
        let x = cbor::read_item(s, self.at);
        match x? {
            Item::Array(n, next) => self.enter(Kind::Array, n, next, line),
            Item::Set(n, next) => self.enter(Kind::Set, n, next, line),
            Item::Map(n, next) => self.enter(Kind::Map, n, next, line),
            scalar => {
                put_scalar(s, self.at, scalar, line);
                self.at = cbor::scalar(x)?;
                line.put(self.inner.separator());
                Some(())
            }
        }
    }

    // Goes behind the end of a container, into the one around it. None where there is none.
    fn leave(&mut self, line: &mut Text) -> Option<()>
        ensures { OnSome result ((self.new.at ≡ self.old.at) × (array_vec_len self.new.outer + 1 ≡ array_vec_len self.old.outer)) }
    {
        line.put(self.inner.kind.end());
        self.inner = self.outer.pop()?;
        line.put(self.inner.separator());
        Some(())
    }

    // Goes into a container of so many elements or pairs, the first of which stands at `next`. None where eight are open.
    fn enter(&mut self, kind: Kind, count: u64, next: usize, line: &mut Text) -> Option<()>
        ensures { OnSome result ((self.new.at ≡ next) × (array_vec_len self.new.outer ≡ array_vec_len self.old.outer + 1)) }
    {
        line.put(kind.start());
        self.outer.try_push(self.inner).ok()?;
        self.inner = Open::of(kind, count);
        self.at = next;
        Some(())
    }
}

// A scalar, which stands at `at`.
fn put_scalar(s: &[u8], at: usize, x: Item, line: &mut Text) {
    match x {
        Item::Unsigned(n, _) => line.put_decimal(n),
        Item::Negative(n, _) => line.put_negative(n),
        Item::Bytes(start, stop) => put_bytes(keys::part(s, start, stop), line),
        _ => line.put(simple(frame::byte_at(s, at))),
    }
}

// A map of so many pairs, the first of which stands at a position.
pub(crate) fn put_map(s: &[u8], count: u64, first: usize, line: &mut Text) {
    line.put(Kind::Map.start());
    let mut walk = Walk {
        at: first,
        inner: Open::of(Kind::Map, count),
        outer: ArrayVec::new(),
    };
    while walk.step(s, line).is_some() {}
}

// A byte string.
pub(crate) fn put_bytes(bytes: &[u8], line: &mut Text) {
    let form = Form::of(bytes);
    line.put(form.start());
    form.put_content(bytes, line);
    line.put(b"'");
}

// A simple value, by its byte.
fn simple(b: u8) -> &'static [u8] {
    match b {
        0xf4 => b"false",
        0xf5 => b"true",
        _ => b"null",
    }
}
