// The command map: the judgement of the outer map's entries (25), of keys that stand twice (26), and of the bytes that follow (24), in one
// walk.
#![tactic(auto)]

ghost use Rattle.std.specs.Prelude.{◌≡◌};
ghost use Rattle.command_map.specs.CommandMap.{is_name, is_map, value_item, refusal_number, map_checked};
ghost use Rattle.command_map.specs.Walk.{with_name, with_args, with_redirect, judge, judge_next, Walked, command_of};

use cbor::Item;
use double_keys::Keys;
use entries::Entry;

// A command that passed the check: where the content of its name starts and stops, how many arguments it has and where the first stands
// (0 and 0 if `args` is missing).
// Stays a start and a stop: C has a part by its place and its length.
#[derive(Clone, Copy, Debug, PartialEq, Eq)]
pub struct Command {
    pub start: usize,
    pub stop: usize,
    pub count: u64,
    pub first: usize,
}

// Why bytes are no command: they are no item of the subset, no command map, or have a key twice.
#[derive(Clone, Copy, Debug, PartialEq, Eq)]
pub enum Refusal {
    NotItem,
    NotCommand,
    DoubleKey,
}

impl Refusal {
    // Document 01's number: 24, 25, 26.
    pub fn number(self) -> u32
        ensures { result ≡ refusal_number self }
    {
        match self {
            Refusal::NotItem => 24,
            Refusal::NotCommand => 25,
            Refusal::DoubleKey => 26,
        }
    }
}

// The judgement of the outer map's entries read so far, where each is allowed: the values of the first `name` and the first `args`, and
// whether a key stands twice in an `args`.
#[derive(Clone, Copy)]
struct Judged {
    name: Option<Item>,
    args: Option<Item>,
    double: bool,
}

// What the walk over the outer map found: the position after it, the judgement unless an entry is not allowed, and how many keys' places
// the row has.
#[derive(Clone, Copy)]
struct Fields {
    end: usize,
    judged: Option<Judged>,
    kept: usize,
}

// Whether an item is a name: a byte string of 1 to 64 bytes.
fn is_name(x: Option<Item>) -> bool
    ensures { result ≡ is_name x }
{
    match x {
        Some(Item::Bytes(start, stop)) => start < stop && stop - start <= 64,
        _ => false,
    }
}

// Whether an item is a map.
fn is_map(x: Option<Item>) -> bool
    ensures { result ≡ is_map x }
{
    matches!(x, Some(Item::Map(_, _)))
}

// The item of an entry's value.
fn value_item(s: &[u8], e: Entry) -> Option<Item>
    ensures { result ≡ value_item s.now e }
{
    match e {
        Entry::Keyed { stop, .. } => cbor::read_item(s, stop),
        Entry::Other(_) => None,
    }
}

impl Judged {
    // The judgement with a `name` entry of this value.
    fn with_name(self, x: Option<Item>) -> Option<Judged>
        ensures { result ≡ with_name self x }
    {
        if !is_name(x) {
            return None;
        }
        Some(Judged {
            name: self.name.or(x),
            ..self
        })
    }

    // The judgement with an `args` entry of this value: a map with byte string keys.
    fn with_args(self, s: &[u8], x: Option<Item>) -> Option<Judged>
        ensures { result ≡ with_args s.now self x }
    {
        let Some(Item::Map(n, at)) = x else {
            return None;
        };
        let double = match double_keys::judge_keys(s, 6, n, at) {
            Keys::Single => self.double,
            Keys::Double => true,
            Keys::Others => return None,
        };
        Some(Judged {
            args: self.args.or(x),
            double,
            ..self
        })
    }

    // The judgement with a `redirect` entry of this value: a map.
    fn with_redirect(self, x: Option<Item>) -> Option<Judged>
        ensures { result ≡ with_redirect self x }
    {
        if !is_map(x) {
            return None;
        }
        Some(self)
    }

    // The judgement with an entry more, unless that is not allowed.
    // Stays a chain of tests: keys are compared in crate keys alone, so no match on their bytes.
    #[tactic(auto, unfolding(crate::specs::Walk::judge))]
    fn judge(self, s: &[u8], e: Entry) -> Option<Judged>
        ensures { result ≡ judge s.now self e }
    {
        let x = value_item(s, e);
        if e.has_key(s, b"name") {
            self.with_name(x)
        } else if e.has_key(s, b"args") {
            self.with_args(s, x)
        } else if e.has_key(s, b"redirect") {
            self.with_redirect(x)
        } else {
            None
        }
    }
}

// One walk over the n entries of the outer map: it reads each, judges it, and puts its key's place into a row.
fn read_fields(s: &[u8], n: u64, at: usize, starts: &mut [u16], stops: &mut [u16]) -> Option<Fields>
    ensures { Walked s.now n at starts.new stops.new result }
{
    let mut p = at;
    let mut kept: usize = 0;
    let mut judged = Some(Judged {
        name: None,
        args: None,
        double: false,
    });
    for _ in 0..n {
        let e = entries::read_entry(s, 7, p)?;
        judged = judged.and_then(
            |j: Judged| -> Option<Judged>
                ensures { result ≡ judge s.entry.now j e }
            { j.judge(s, e) },
        );
        kept = double_keys::keep(starts, stops, kept, Some(e));
        p = e.next();
    }
    Some(Fields {
        end: p,
        judged,
        kept,
    })
}

// The command that a judgement of all entries shows. A missing `args` reads as an empty map.
fn command_of(judged: Option<Judged>) -> Result<Command, Refusal>
    ensures { result ≡ command_of judged }
{
    let j = judged.ok_or(Refusal::NotCommand)?;
    let Some(Item::Bytes(start, stop)) = j.name else {
        return Err(Refusal::NotCommand);
    };
    if j.double {
        return Err(Refusal::DoubleKey);
    }
    let (count, first) = match j.args {
        Some(Item::Map(n, at)) => (n, at),
        _ => (0, 0),
    };
    Ok(Command {
        start,
        stop,
        count,
        first,
    })
}

// The check of bytes that start with the head of a map of n entries. Of four keys that are allowed two are equal, so that no more than
// three are searched.
// Stays two rows: `double_keys::keep` and `row_double` take starts and stops apart.
pub fn map_of(s: &[u8], n: u64, at: usize) -> Result<Command, Refusal>
    ensures { result ≡ map_checked s.now n at }
{
    let mut starts = [0u16; 3];
    let mut stops = [0u16; 3];
    let Some(f) = read_fields(s, n, at, &mut starts, &mut stops) else {
        return Err(Refusal::NotItem);
    };
    if f.end != s.len() {
        return Err(Refusal::NotItem);
    }
    let command = command_of(f.judged)?;
    if 3 < n || double_keys::row_double(s, 7, n, at, &starts, &stops, f.kept) {
        return Err(Refusal::DoubleKey);
    }
    Ok(command)
}
