// The entries of a map: reading one, and finding a key.
#![tactic(auto)]

ghost use Rattle.std.specs.Prelude.{◌≡◌, false};
ghost use Rattle.std.specs.Option.{option_map, option_map_or};
ghost use Rattle.entries.specs.Entries.{next_of, is_keyed, entry_at, entries, has_key, find};

use cbor::Item;

// An entry of a map. Of a key that is a byte string, the content runs from start to stop and the value from stop to next. Another key
// has only the position after its value.
#[derive(Clone, Copy)]
pub enum Entry {
    Keyed {
        start: usize,
        stop: usize,
        next: usize,
    },
    Other(usize),
}

// The entry at a position, its value of at most `levels` levels.
#[tactic(auto, unfolding(crate::specs::Entries::entry_at))]
pub fn read_entry(s: &[u8], levels: usize, at: usize) -> Option<Entry>
    ensures { result ≡ entry_at s.now levels at }
{
    let x = cbor::read_item(s, at);
    if let Some(Item::Bytes(start, stop)) = x {
        let next = cbor::read_value(s, levels, stop)?;
        return Some(Entry::Keyed { start, stop, next });
    }
    let stop = cbor::scalar(x)?;
    let next = cbor::read_value(s, levels, stop)?;
    Some(Entry::Other(next))
}

impl Entry {
    // The position after an entry.
    pub fn next(self) -> usize
        ensures { result ≡ next_of self }
    {
        match self {
            Entry::Keyed { next, .. } => next,
            Entry::Other(next) => next,
        }
    }

    // Whether an entry's key is a byte string.
    pub fn is_keyed(self) -> bool
        ensures { result ≡ is_keyed self }
    {
        matches!(self, Entry::Keyed { .. })
    }

    // Whether an entry's key has this content.
    pub fn has_key(self, s: &[u8], key: &[u8]) -> bool
        ensures { result ≡ has_key s.now key.now self }
    {
        match self {
            Entry::Keyed { start, stop, .. } => keys::same_key(key, keys::part(s, start, stop)),
            Entry::Other(_) => false,
        }
    }
}

// The position after what was read, if it is an entry.
pub fn next_of(e: Option<Entry>) -> Option<usize>
    ensures { result ≡ option_map next_of e }
{
    Some(e?.next())
}

// Whether what was read is an entry whose key is a byte string.
pub fn is_keyed(e: Option<Entry>) -> bool
    ensures { result ≡ option_map_or is_keyed e false }
{
    matches!(e, Some(Entry::Keyed { .. }))
}

// Whether what was read is an entry whose key has this content.
pub fn has_key(s: &[u8], key: &[u8], e: Option<Entry>) -> bool
    ensures { result ≡ option_map_or (has_key s.now key.now) e false }
{
    match e {
        Some(e) => e.has_key(s, key),
        None => false,
    }
}

// The first of n entries that has this key, while they are entries.
pub fn find_key(s: &[u8], levels: usize, key: &[u8], n: u64, at: usize) -> Option<Entry>
    ensures { result ≡ find s.now key.now (entries s.now levels n at) }
{
    let mut p = at;
    for _ in 0..n {
        let e = read_entry(s, levels, p)?;
        if e.has_key(s, key) {
            return Some(e);
        }
        p = e.next();
    }
    None
}
