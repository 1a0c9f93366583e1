// Keys of a map: the part of the bytes that one is, and where one stands to another. Two keys are compared by their lengths first and,
// only if these are equal, by their bytes.
#![tactic(auto)]

ghost use Rattle.std.specs.Prelude.{◌≡◌, length};
ghost use Rattle.keys.specs.Keys.{part, equal};
ghost use Rattle.keys.specs.Order.{by_bytes, compare};

use std::cmp::Ordering;

// The bytes of s from start up to stop, as far as there are any.
pub fn part(s: &[u8], start: usize, stop: usize) -> &[u8]
    ensures { result.now ≡ part s.now start stop }
{
    s.get(start..stop.min(s.len())).unwrap_or(&[])
}

// Where a key stands to another of its length. It is the one place where bytes of two keys are compared.
// Stays by places: of a `zip` the compiler makes a loop that takes a quarter more time on long bytes, and `cmp` of slices costs more on short keys.
fn by_bytes(a: &[u8], b: &[u8]) -> Ordering
    requires { length a.now ≡ length b.now }
    ensures { result ≡ by_bytes a.now b.now }
{
    for i in 0..a.len() {
        if a[i] != b[i] {
            return a[i].cmp(&b[i]);
        }
    }
    Ordering::Equal
}

// Where a key stands to another: the shorter before the longer.
pub fn compare(a: &[u8], b: &[u8]) -> Ordering
    ensures { result ≡ compare a.now b.now }
{
    match a.len().cmp(&b.len()) {
        Ordering::Equal => by_bytes(a, b),
        order => order,
    }
}

// Whether two keys are equal by content.
pub fn same_key(a: &[u8], b: &[u8]) -> bool
    ensures { result ≡ equal a.now b.now }
{
    compare(a, b).is_eq()
}
