// The reader of Mercurial's CBOR subset: heads, items, and the three readers of values, arrays and maps, which
// call each other. Positions count from the start of the slice; a position past its end holds nothing to read.
// And the writer of shortest heads.
#![tactic(auto)]

ghost use Rattle.std.specs.Prelude.{◌≡◌, ◌+◌, ◌%◌, ◌≤◌, ◌<◌, length};
ghost use Rattle.cbor.specs.Cbor.{width, shortest, is_shortest, big_endian, head_at, end_of, bytes_at, tagged, simple, item_at, scalar_of, key, value, Reader, Reads, repeat, pair, is_item};
ghost use Rattle.cbor.specs.Heads.{big_bytes, head_bytes};
ghost use Rattle.buffer.specs.Bytes.{write};

// A head: its major type, the low five bits of its first byte, its value and the position after it.
#[derive(Clone, Copy)]
pub struct Head {
    pub major: u8,
    pub info: u8,
    pub value: u64,
    pub next: usize,
}

// What stands at a position: an integer's head value, a byte string's start, or a container's count, which reaches 2^64-1 and is never
// added to a position. The last number is the position after a scalar, or that of a container's first element.
#[derive(Clone, Copy)]
pub enum Item {
    Unsigned(u64, usize),
    Negative(u64, usize),
    Bytes(usize, usize),
    Simple(usize),
    Array(u64, usize),
    Map(u64, usize),
    Set(u64, usize),
}

// How many bytes follow a head's first byte.
#[tactic(auto, unfolding(crate::specs::Cbor::width))]
fn width_of(info: u8) -> usize
    requires { info < 28 }
    ensures { result ≡ width info }
{
    match info {
        0..=23 => 0,
        24 => 1,
        25 => 2,
        26 => 4,
        _ => 8,
    }
}

// The number that w bytes from `at` on hold, the highest first.
fn big_endian(s: &[u8], at: usize, w: usize) -> u64
    requires { (w ≤ 8) × (at + w ≤ length s.now) }
    ensures { result ≡ big_endian s.now at w }
{
    let mut v: u64 = 0;
    for i in 0..w {
        v = v * 256 + u64::from(s[at + i]);
    }
    v
}

// The head at a position.
#[tactic(auto, unfolding(crate::specs::Cbor::head_at, crate::specs::Cbor::head_of, crate::specs::Cbor::head_value))]
pub fn read_head(s: &[u8], at: usize) -> Option<Head>
    ensures { result ≡ head_at s.now at }
{
    let b = *s.get(at)?;
    let info = b % 32;
    if 27 < info {
        return None;
    }
    let from = at + 1;
    let w = width_of(info);
    if s.len() - from < w {
        return None;
    }
    let mut value = u64::from(info);
    if 23 < info {
        value = big_endian(s, from, w);
    }
    Some(Head {
        major: b / 32,
        info,
        value,
        next: from + w,
    })
}

// The low five bits of the shortest head's first byte.
#[tactic(auto, unfolding(crate::specs::Cbor::shortest))]
fn shortest(n: u64) -> u8
    ensures { result ≡ shortest n }
{
    match n {
        0..=23 => n as u8,
        24..=255 => 24,
        256..=65535 => 25,
        65536..=4294967295 => 26,
        _ => 27,
    }
}

// Whether a head is the shortest for its number, where one was read.
pub fn is_shortest(h: Option<Head>) -> bool
    ensures { result ≡ is_shortest h }
{
    h.is_none_or(|head| head.info == shortest(head.value))
}

// The position behind n bytes from `from` on, or one past the slice's end where it has fewer. The length is never added before it is
// compared with what is there.
// Stays a position: past the end is one like any other, at which nothing is read, and who passes over content asks nothing more.
pub fn end_of(s: &[u8], from: usize, n: u64) -> usize
    ensures { result ≡ end_of s.now from n }
{
    let past = s.len() + 1;
    if s.len() < from {
        return past;
    }
    let room = (s.len() - from) as u64;
    if room < n {
        return past;
    }
    from + (n as usize)
}

// A byte string of n bytes that starts at `from`.
#[tactic(auto, unfolding(crate::specs::Cbor::bytes_at, crate::specs::Cbor::end_of))]
fn bytes_from(s: &[u8], n: u64, from: usize) -> Option<Item>
    ensures { result ≡ bytes_at s.now n from }
{
    let stop = end_of(s, from, n);
    if s.len() < stop {
        return None;
    }
    Some(Item::Bytes(from, stop))
}

// What a tag stands before: a set, where it is 258 and an array's head follows.
#[tactic(auto, unfolding(crate::specs::Cbor::tagged))]
fn tag(s: &[u8], number: u64, at: usize) -> Option<Item>
    ensures { result ≡ tagged s.now number at }
{
    if number != 258 {
        return None;
    }
    let head = read_head(s, at)?;
    if head.major != 4 {
        return None;
    }
    Some(Item::Set(head.value, head.next))
}

// The item at a position, by its head: what a container holds is not read.
#[tactic(auto, unfolding(crate::specs::Cbor::item_at))]
pub fn read_item(s: &[u8], at: usize) -> Option<Item>
    ensures { result ≡ item_at s.now at }
{
    let head = read_head(s, at)?;
    match head.major {
        0 => Some(Item::Unsigned(head.value, head.next)),
        1 => Some(Item::Negative(head.value, head.next)),
        2 => bytes_from(s, head.value, head.next),
        4 => Some(Item::Array(head.value, head.next)),
        5 => Some(Item::Map(head.value, head.next)),
        6 => tag(s, head.value, head.next),
        7 => simple(head.info, head.next),
        _ => None,
    }
}

// false, true or null, by the low five bits of its byte.
fn simple(info: u8, next: usize) -> Option<Item>
    ensures { result ≡ simple info next }
{
    match info {
        20..=22 => Some(Item::Simple(next)),
        _ => None,
    }
}

// The position after a scalar.
pub fn scalar(x: Option<Item>) -> Option<usize>
    ensures { result ≡ scalar_of x }
{
    match x? {
        Item::Unsigned(_, next) => Some(next),
        Item::Negative(_, next) => Some(next),
        Item::Bytes(_, next) => Some(next),
        Item::Simple(next) => Some(next),
        _ => None,
    }
}

// A map's key or a set's member.
#[tactic(auto, unfolding(crate::specs::Cbor::key))]
pub fn read_key(s: &[u8], at: usize) -> Option<usize>
    ensures { result ≡ key s.now at }
{
    scalar(read_item(s, at))
}

// What `read` reads, n times, one behind the other.
fn repeat<R: Fn(usize) -> Option<usize>>(n: u64, at: usize, read: R) -> Option<usize>
    requires { R.IsAlwaysCallable read }
    ensures { (r : Reader) → Reads (R.post read) r → result ≡ repeat n r at }
{
    let mut p = at;
    for _ in 0..n {
        p = read(p)?;
    }
    Some(p)
}

// A value in which containers nest at most `levels` deep.
#[cycle(read_array_read_map_read_value)]
pub fn read_value(s: &[u8], levels: usize, at: usize) -> Option<usize>
    ensures { result ≡ value s.now levels at }
{
    let x = read_item(s, at);
    if levels == 0 {
        return scalar(x);
    }
    let inner = levels - 1;
    match x? {
        Item::Array(n, next) => read_array(s, inner, n, next),
        Item::Map(n, next) => read_map(s, inner, n, next),
        Item::Set(n, next) => repeat(
            n,
            next,
            |p: usize| -> Option<usize>
                ensures { result ≡ key s.entry.now p }
            { read_key(s, p) },
        ),
        _ => scalar(x),
    }
}

// The n elements of an array.
#[cycle(read_array_read_map_read_value)]
fn read_array(s: &[u8], levels: usize, n: u64, at: usize) -> Option<usize>
    ensures { result ≡ repeat n (value s.now levels) at }
{
    repeat(
        n,
        at,
        |p: usize| -> Option<usize>
            ensures { result ≡ value s.entry.now levels p }
        { read_value(s, levels, p) },
    )
}

// The n pairs of a map, its values of at most `levels` levels.
#[cycle(read_array_read_map_read_value)]
pub fn read_map(s: &[u8], levels: usize, n: u64, at: usize) -> Option<usize>
    ensures { result ≡ repeat n (pair s.now (value s.now levels)) at }
{
    repeat(
        n,
        at,
        |p: usize| -> Option<usize>
            ensures { result ≡ pair s.entry.now (value s.entry.now levels) p }
        {
            let stop = read_key(s, p)?;
            read_value(s, levels, stop)
        },
    )
}

// Whether the slice is one item of the subset, with nothing left over.
#[tactic(auto, unfolding(crate::specs::Cbor::is_item))]
pub fn is_item(s: &[u8]) -> bool
    ensures { result ≡ is_item s.now }
{
    read_value(s, 8, 0) == Some(s.len())
}

// Puts the low w bytes of a number into a buffer from a place on, the highest first, as far as the buffer goes.
fn put_big(out: &mut [u8], at: usize, w: usize, n: u64)
    requires { w ≤ 8 }
    ensures { out.new ≡ write out.old at (big_bytes w n) }
{
    let bytes = n.to_be_bytes();
    buffer::put(out, at, &bytes[8 - w..]);
}

// Puts the shortest head of a major type, 0 to 7, and a number into a buffer from a place on, as far as the buffer goes, and answers its
// length.
// Stays a number, the major type: it takes any, by its low three bits (`head_bytes`). Stays a buffer and a place: who lends the buffer has
// other bytes before and behind.
pub fn put_head(out: &mut [u8], at: usize, major: u8, n: u64) -> usize
    ensures { (result ≡ length (head_bytes (major % 8) n)) × (out.new ≡ write out.old at (head_bytes (major % 8) n)) }
{
    let info = shortest(n);
    let width = width_of(info);
    if out.len() <= at {
        return width + 1;
    }
    let first = [major % 8 * 32 + info];
    buffer::put(out, at, &first);
    put_big(out, at + 1, width, n);
    width + 1
}
