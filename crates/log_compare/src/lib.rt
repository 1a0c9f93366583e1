// Two stored logs with four-byte lengths, compared record by record. Lent logs are compared by `Broken::of` and `Place::next`; logs that come in
// pieces are read through for breaks by `Scanning::scan`, and then compared by `Comparing::step`. No record is held whole.
#![tactic(auto)]

mod compare;
mod heads;
mod lent;
mod scan;

ghost use Rattle.std.specs.Prelude.{◌≡◌};
ghost use Rattle.log_compare.specs.Entries.{entry_told, told_of};
ghost use Rattle.log_compare.specs.Breaks.{side_number};

// A record that is not the same in the two logs, by its number, from 1 on: one that both have, with the length of each body; or one that only
// the first log has, or only the second, with its body's length.
#[derive(Clone, Copy, PartialEq, Eq)]
pub enum Entry {
    Both(u64, u64, u64),
    First(u64, u64),
    Second(u64, u64),
}

// One of the two logs.
#[derive(Clone, Copy, PartialEq, Eq)]
pub enum Side {
    First,
    Second,
}

// Log 1 or log 2.
impl From<Side> for u32 {
    ghost from_gives = { λ side number. number ≡ side_number side };

    fn from(side: Side) -> u32 {
        match side {
            Side::First => 1,
            Side::Second => 2,
        }
    }
}

// The first log that ends inside a record, and the place, from 0, where that record starts.
#[derive(Clone, Copy, PartialEq, Eq)]
pub struct Broken {
    pub log: Side,
    pub place: u64,
}

// Where a comparison of lent logs stands: the number of the next record, and where it starts in each log.
// Stays `first` and `second`, here and below: C has these fields by their names.
#[derive(Clone, Copy)]
pub struct Place {
    pub number: u64,
    pub first: usize,
    pub second: usize,
}

// The entry from a place on, if there is one, and the place behind its record.
#[derive(Clone, Copy)]
pub struct Found {
    pub said: Option<Entry>,
    pub next: Place,
}

// The record under way in a log that comes in pieces: the bytes of its head that came so far, the first `held % 6` of `head`, and what is
// left of a body.
// Stays an array and a count: C has this struct.
#[repr(C)]
#[derive(Clone, Copy)]
pub struct Partial {
    pub head: [u8; 6],
    pub held: usize,
    pub left: u64,
}

// A record's head: the body's length, and the bytes of the kind.
#[derive(Clone, Copy, PartialEq, Eq)]
struct Head {
    length: u64,
    low: u8,
    high: u8,
}

// Where the reading of a log for breaks stands: the record under way, the place where it starts, and how many bytes were taken.
#[repr(C)]
#[derive(Clone, Copy)]
pub struct Scanning {
    pub under: Partial,
    pub start: u64,
    pub place: u64,
}

// Where a comparison of logs in pieces stands: the number of the record under way, the length of its body, what is under way in each log, and
// whether the bodies are still to be compared, 1 for yes: then they have one length, and are alike so far.
// Stays a number, `alike`: C has this struct, and any bytes are one.
#[repr(C)]
#[derive(Clone, Copy)]
pub struct Comparing {
    pub number: u64,
    pub length: u64,
    pub first: Partial,
    pub second: Partial,
    pub alike: u64,
}

// A piece of a log that is at hand, and whether nothing follows it.
#[derive(Clone, Copy)]
pub struct Piece<'a> {
    pub bytes: &'a [u8],
    pub is_last: bool,
}

// Where it then stands, the bytes taken of each piece, and the entry, if there is one.
#[derive(Clone, Copy)]
pub struct Step {
    pub state: Comparing,
    pub first: usize,
    pub second: usize,
    pub said: Option<Entry>,
}

// An entry in numbers: which logs have the record, 1 the first, 2 the second, 3 both, and 0 for no entry; the record's number; and the body's
// length in each log, 0 where it has none.
// Stays numbers: C reads them.
#[derive(Clone, Copy, Default)]
pub struct Told {
    pub logs: u32,
    pub number: u64,
    pub first: u64,
    pub second: u64,
}

impl From<Entry> for Told {
    ghost from_gives = { λ entry told. told ≡ entry_told entry };

    fn from(entry: Entry) -> Told {
        match entry {
            Entry::Both(number, first, second) => Told {
                logs: 3,
                number,
                first,
                second,
            },
            Entry::First(number, first) => Told {
                logs: 1,
                number,
                first,
                second: 0,
            },
            Entry::Second(number, second) => Told {
                logs: 2,
                number,
                first: 0,
                second,
            },
        }
    }
}

// What is said, in numbers.
pub fn tell(said: Option<Entry>) -> Told
    ensures { result ≡ told_of said }
{
    match said {
        Some(entry) => Told::from(entry),
        None => Told::default(),
    }
}
