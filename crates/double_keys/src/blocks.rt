// The search for a double key in entries of any number, wherever they lie. It takes them in blocks of as many keys as a row has places:
// the keys of a block are put in order, and each key that follows the block is looked for among them.
ghost use Rattle.std.specs.Prelude.{◌≡◌, ◌≤◌, length};
ghost use Rattle.keys.specs.Keys.{among, twice};
ghost use Rattle.entries.specs.Entries.{entries, contents, again};
ghost use Rattle.double_keys.specs.Entries.{to_come, keys_to_come};
ghost use Rattle.double_keys.specs.Rows.{keys_in};
ghost use Rattle.double_keys.specs.Row.{kept};
ghost use Rattle.double_keys.specs.Search.{Places};
ghost use Rattle.double_keys.specs.Blocks.{Blocked, InOrder, entry_among, meet, block_double};

use crate::keep;
use crate::rows::{Row, list_all};
use crate::walk::Entries;
use entries::Entry;
use std::cmp::Ordering;

// A block taken: how many keys it has, and the entries that follow it.
#[derive(Clone, Copy)]
struct Block<'a> {
    count: usize,
    rest: Entries<'a>,
}

// Whether an entry's key stands again in the entries to come.
fn stands_again(e: Entry, rest: Entries) -> bool
    ensures { result ≡ again rest.entry.s.now e (to_come rest.entry) }
{
    let Entry::Keyed { start, stop, .. } = e else {
        return false;
    };
    let key = keys::part(rest.s, start, stop);
    entries::find_key(rest.s, rest.levels, key, rest.left, rest.at).is_some()
}

// Puts the places of the entries' keys into a row while it has room for them.
fn take_block<'a>(all: Entries<'a>, starts: &mut [u16], stops: &mut [u16]) -> Block<'a>
    ensures { Blocked all.entry starts.old starts.new stops.new result }
{
    let mut b = Block {
        count: 0,
        rest: all,
    };
    let mut rest = all;
    while let Some(e) = rest.next() {
        let count = keep(starts, stops, b.count, Some(e));
        if starts.len() < count {
            return b;
        }
        b = Block { count, rest };
    }
    Block { rest, ..b }
}

// Whether a key stands among those of a row, which stand in order: it is looked for by halves.
// Stays a loop: `binary_search_by` asks its closure for an answer at every number, also at one that is no key's index.
fn stands(row: Row, order: &[u16], key: &[u8]) -> bool
    requires { InOrder row.s.now row.starts.now row.stops.now row.n order.now }
    ensures { result ≡ among (keys_in row.entry) key.now }
{
    let mut low: usize = 0;
    let mut high = row.n;
    while low < high {
        let mid = (low + high) / 2;
        match keys::compare(key, row.key_at(order[mid] as usize)) {
            Ordering::Equal => return true,
            Ordering::Less => low = mid + 1,
            Ordering::Greater => high = mid,
        }
    }
    false
}

// Whether an entry's key stands among those of a row.
fn entry_stands(row: Row, order: &[u16], e: Entry) -> bool
    requires { InOrder row.s.now row.starts.now row.stops.now row.n order.now }
    ensures { result ≡ entry_among row.entry.s.now (keys_in row.entry) e }
{
    match e {
        Entry::Keyed { start, stop, .. } => stands(row, order, keys::part(row.s, start, stop)),
        Entry::Other(_) => false,
    }
}

// Whether a key of the entries to come, which lie in what the row lies in, stands among those of the row.
fn one_stands(row: Row, order: &[u16], rest: Entries) -> bool
    requires in_order { InOrder row.s.now row.starts.now row.stops.now row.n order.now }
    requires same { rest.s.now ≡ row.s.now }
    ensures { result ≡ meet (keys_in row.entry) (keys_to_come rest.entry) }
{
    for e in rest {
        if entry_stands(row, order, e) {
            return true;
        }
    }
    false
}

// Whether a key of a block stands twice in it, or again after it.
fn block_double(b: Block, starts: &[u16], stops: &[u16]) -> bool
    requires { Places b.rest.s.now starts.now stops.now b.count × (b.count ≤ 1024) }
    ensures { result ≡ block_double (kept b.entry.rest.s.now starts.now stops.now b.entry.count) (keys_to_come b.entry.rest) }
{
    let row = Row {
        s: b.rest.s,
        starts,
        stops,
        n: b.count,
    };
    let mut order = [0u16; 1024];
    list_all(row.n, &mut order);
    row.search(&mut order, row.n) || one_stands(row, &order, b.rest)
}

// Whether a key stands twice in the entries. Each turn compares one key with all that follow it, and then a block with what follows that.
pub(crate) fn double_far(all: Entries, starts: &mut [u16], stops: &mut [u16]) -> bool
    requires { length starts.old ≤ 1024 }
    ensures { result ≡ twice (keys_to_come all.entry) }
{
    let mut rest = all;
    while let Some(e) = rest.next() {
        if stands_again(e, rest) {
            return true;
        }
        let b = take_block(rest.from_here(), starts, stops);
        if block_double(b, starts, stops) {
            return true;
        }
        rest = b.rest;
    }
    false
}
