// The search for a double key in a row of places: where the contents of keys start and stop in s.
ghost use Rattle.std.specs.Prelude.{◌≡◌, ℕ, ◌≤◌, ◌<◌, length, get_or};
ghost use Rattle.keys.specs.Keys.{twice};
ghost use Rattle.double_keys.specs.Row.{kept, within, sound};
ghost use Rattle.double_keys.specs.Search.{hash, key_of, Places, Marked, Inserted, Indexes, Counts, Lists, Searched};

use std::cmp::Ordering;

// A row of n places in s, no more than the search has room for. Each starts before it stops.
#[derive(Clone, Copy)]
pub(crate) struct Row<'a> {
    pub(crate) s: &'a [u8],
    pub(crate) starts: &'a [u16],
    pub(crate) stops: &'a [u16],
    pub(crate) n: usize,
    ghost in_s: { Places s.now starts.now stops.now n },
    ghost few: { n ≤ 1024 },
}

// Whether each of n places starts before it stops, within `size` bytes.
fn all_within(starts: &[u16], stops: &[u16], n: usize, size: usize) -> bool
    requires { (n ≤ length starts.now) × (n ≤ length stops.now) }
    ensures { result ≡ within starts.now stops.now n size }
{
    for i in 0..n {
        if stops[i] < starts[i] {
            return false;
        }
        if size < (stops[i] as usize) {
            return false;
        }
    }
    true
}

// A number made of a key's content: equal keys have equal numbers. The multiplier is the prime of the FNV hash.
fn key_hash(key: &[u8]) -> usize
    ensures { result ≡ hash key.now }
{
    let mut h: usize = 0;
    for b in key {
        h = (h * 16777619 + (*b as usize)) % 4294967296;
    }
    h
}

// Puts the indexes of the keys whose mark is counted twice into the row that has the marks of n keys, and answers how many they are.
fn list_shared(n: usize, counts: &[u8], row: &mut [u16]) -> usize
    requires { (n ≤ length row.old) × (n ≤ 65536) × ((t : ℕ) → t < n → get_or row.old t 0 < length counts.now) }
    ensures { Lists n counts.now row.old row.new result }
{
    let mut m: usize = 0;
    for i in 0..n {
        let mark = row[i] as usize;
        if 1 < counts[mark] {
            row[m] = i as u16;
            m += 1;
        }
    }
    m
}

// Puts all the indexes below n into a row.
pub(crate) fn list_all(n: usize, row: &mut [u16])
    requires { (n ≤ length row.old) × (n ≤ 65536) }
    ensures { Counts n row.old row.new }
{
    for i in 0..n {
        row[i] = i as u16;
    }
}

// Puts v into a row of k places at an index; the places from there on move up by one.
fn insert(row: &mut [u16], k: usize, at: usize, v: u16)
    requires { (at ≤ k) × (k < length row.old) }
    ensures { Inserted row.old row.new k at v }
{
    for j in (at..k).rev() {
        row[j + 1] = row[j];
    }
    row[at] = v;
}

impl<'a> Row<'a> {
    ghost use Rattle.double_keys.specs.Rows.{keys_in, IsRow};

    // The row of k places, if they are in s and no more than the search has room for.
    pub(crate) fn of(s: &'a [u8], starts: &'a [u16], stops: &'a [u16], k: usize) -> Option<Row<'a>>
        ensures { IsRow s.now starts.now stops.now k result }
    {
        if starts.len() < k {
            return None;
        }
        if stops.len() < k {
            return None;
        }
        if 1024 < k {
            return None;
        }
        if !all_within(starts, stops, k, s.len()) {
            return None;
        }
        Some(Row {
            s,
            starts,
            stops,
            n: k,
        })
    }

    // The key at index i.
    pub(crate) fn key_at(self, i: usize) -> &'a [u8]
        requires { i < self.n }
        ensures { result.now ≡ key_of self.entry.s.now self.entry.starts.now self.entry.stops.now i }
    {
        let start = self.starts[i] as usize;
        let stop = self.stops[i] as usize;
        &self.s[start..stop]
    }

    // Puts a mark of each key into a row, and counts the keys of each mark, up to two.
    fn mark_keys(self, counts: &mut [u8], row: &mut [u16])
        requires { (self.n ≤ length row.old) × (0 < length counts.old) × (length counts.old ≤ 65536) }
        ensures { Marked self.entry.s.now self.entry.starts.now self.entry.stops.now self.entry.n counts.new row.new }
    {
        for i in 0..self.n {
            let mark = key_hash(self.key_at(i)) % counts.len();
            row[i] = mark as u16;
            if counts[mark] < 2 {
                counts[mark] += 1;
            }
        }
    }

    // Whether one of the keys whose indexes are the first m of a row is equal to another. They are taken in turn, and those taken stand in
    // order in the row, the greatest first, where the inner loop looks for the next one by halves.
    // Stays two nested loops, the outer one left by a label: document 01 asks for that form (docs/DECISIONS.md, 80).
    pub(crate) fn search(self, row: &mut [u16], m: usize) -> bool
        requires { Indexes self.n row.old m }
        ensures { Searched self.entry.s.now self.entry.starts.now self.entry.stops.now self.entry.n row.old row.new m result }
    {
        let mut found = false;
        'search: for i in 0..m {
            let v = row[i];
            let key = self.key_at(v as usize);
            let mut low: usize = 0;
            let mut high = i;
            while low < high {
                let mid = (low + high) / 2;
                match keys::compare(key, self.key_at(row[mid] as usize)) {
                    Ordering::Equal => {
                        found = true;
                        break 'search;
                    }
                    Ordering::Less => low = mid + 1,
                    Ordering::Greater => high = mid,
                }
            }
            insert(row, i, low, v);
        }
        found
    }

    // Whether a key stands twice, by M marks: the keys that are alone with theirs are passed over. N places are enough for the row.
    fn double_marked<const M: usize, const N: usize>(self) -> bool
        requires { (self.n ≤ N) × (N ≤ 65536) × (0 < M) × (M ≤ 65536) }
        ensures { result ≡ twice (keys_in self.entry) }
    {
        let mut counts = [0u8; M];
        let mut row = [0u16; N];
        self.mark_keys(&mut counts, &mut row);
        let m = list_shared(self.n, &counts, &mut row);
        self.search(&mut row, m)
    }

    // Whether a key stands twice. Where there are few, most of them are alone with their mark; where there are many, marks would cost more
    // than they spare at worst, and all keys are put in order.
    pub(crate) fn double_key(self) -> bool
        ensures { result ≡ twice (keys_in self.entry) }
    {
        if self.n <= 16 {
            return self.double_marked::<64, 16>();
        }
        if self.n <= 400 {
            return self.double_marked::<1536, 400>();
        }
        let mut row = [0u16; 1024];
        list_all(self.n, &mut row);
        self.search(&mut row, self.n)
    }
}
