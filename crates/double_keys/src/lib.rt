// Whether a key stands twice in a map. The places of a map's keys are put into a row and searched there (rows.rt); a map with more keys
// than the row has places is searched in blocks (blocks.rt).
#![tactic(auto)]

mod blocks;
mod rows;
mod walk;

ghost use Rattle.std.specs.Prelude.{◌≡◌, ◌≤◌, length};
ghost use Rattle.keys.specs.Keys.{twice};
ghost use Rattle.entries.specs.Entries.{entries};
ghost use Rattle.double_keys.specs.DoubleKeys.{keys_of, strings_keys};
ghost use Rattle.double_keys.specs.Row.{Keeps, KeptAll, row_double};
ghost use Rattle.double_keys.specs.Entries.{to_come, keys_to_come};

use entries::Entry;
use rows::Row;
use walk::Entries;

// The keys of a map: byte strings, each once; byte strings, one of them twice; not all byte strings.
#[derive(Clone, Copy)]
pub enum Keys {
    Single,
    Double,
    Others,
}

// Puts the place of an entry's key into a row that has k, and answers how many it then has: past the row's end where it has no room, or
// where the place is past 65,535; k where what was read is no entry, or its key is no byte string.
// Stays two rows and a count, and a number where there is no room: its promise, `Keeps`, speaks of rows of any two lengths and of that number.
#[tactic(auto, unfolding(crate::specs::Row::kept_count, crate::specs::Row::kept_starts, crate::specs::Row::kept_stops))]
pub fn keep(starts: &mut [u16], stops: &mut [u16], k: usize, e: Option<Entry>) -> usize
    ensures { Keeps starts.old stops.old starts.new stops.new k e result }
{
    let Some(Entry::Keyed { start, stop, .. }) = e else {
        return k;
    };
    let full = starts.len() + 1;
    if starts.len() <= k {
        return full;
    }
    if stops.len() <= k {
        return full;
    }
    if 65535 < start {
        return full;
    }
    if 65535 < stop {
        return full;
    }
    starts[k] = start as u16;
    stops[k] = stop as u16;
    k + 1
}

// Whether a key stands twice: among the k keys of a row or, where the row is not sound, in the n entries themselves.
// Stays two rows and a count: its promise, `row_double`, speaks of rows of any two lengths.
pub fn row_double(
    s: &[u8],
    levels: usize,
    n: u64,
    at: usize,
    starts: &[u16],
    stops: &[u16],
    k: usize,
) -> bool
    ensures { result ≡ row_double s.now (entries s.now levels n at) starts.now stops.now k }
{
    if let Some(row) = Row::of(s, starts, stops, k) {
        return row.double_key();
    }
    let all = Entries {
        s,
        levels,
        left: n,
        at,
    };
    blocks::double_far(all, &mut [0; 8], &mut [0; 8])
}

// Puts the places of the entries' keys into a row, if they are byte strings, and answers how many it then has.
fn keep_keys(all: Entries, starts: &mut [u16], stops: &mut [u16]) -> Option<usize>
    ensures { KeptAll all.entry.s.now (to_come all.entry) starts.new stops.new result }
{
    let mut k: usize = 0;
    for e in all {
        if !e.is_keyed() {
            return None;
        }
        k = keep(starts, stops, k, Some(e));
    }
    Some(k)
}

// The keys of a map that are byte strings, by whether one stands twice.
fn strings_keys(double: bool) -> Keys
    ensures { result ≡ strings_keys double }
{
    if double { Keys::Double } else { Keys::Single }
}

// The keys of the entries, with a row of N places for them.
fn judge_with<const N: usize>(all: Entries) -> Keys
    requires { N ≤ 1024 }
    ensures { result ≡ keys_of all.entry.s.now (to_come all.entry) }
{
    let mut starts = [0u16; N];
    let mut stops = [0u16; N];
    let Some(k) = keep_keys(all, &mut starts, &mut stops) else {
        return Keys::Others;
    };
    if let Some(row) = Row::of(all.s, &starts, &stops, k) {
        return strings_keys(row.double_key());
    }
    strings_keys(blocks::double_far(all, &mut starts, &mut stops))
}

// The keys of n entries.
pub fn judge_keys(s: &[u8], levels: usize, n: u64, at: usize) -> Keys
    ensures { result ≡ keys_of s.now (entries s.now levels n at) }
{
    let all = Entries {
        s,
        levels,
        left: n,
        at,
    };
    if n <= 16 {
        return judge_with::<16>(all);
    }
    judge_with::<1024>(all)
}
