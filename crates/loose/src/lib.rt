// Whether bytes are written loosely: one of their heads is not the shortest for its number.
#![tactic(auto)]

ghost use Rattle.std.specs.Prelude.{◌≡◌, ◌+◌, ◌≤◌, ◌<◌, length, get_or, IfSome};
ghost use Rattle.loose.specs.Scan.{behind_of, behind, scanned};
ghost use Rattle.loose.specs.Skip.{Skips, Halved};

use cbor::Head;

// The position behind a head that ends at `next`, and behind a byte string's content.
// Stays a position, as `cbor::end_of` does: past the end the pass is over.
fn behind_of(s: &[u8], major: u8, n: u64, next: usize) -> usize
    ensures { result ≡ behind_of s.now major n next }
{
    if major != 2 {
        return next;
    }
    cbor::end_of(s, next, n)
}

// The same of a head that was read.
fn behind(s: &[u8], h: Option<Head>) -> usize
    ensures { result ≡ behind s.now h }
{
    match h {
        Some(head) => behind_of(s, head.major, head.value, head.next),
        None => s.len(),
    }
}

// The first of k bytes from `from` on that is not 0, counted from there.
fn first_set(s: &[u8], from: usize, k: usize) -> Option<usize>
    requires { from + k ≤ length s.now }
    ensures { IfSome result (λ i. (i < k) × (0 < get_or s.now (from + i) 0)) }
{
    s[from..from + k].iter().position(|b| *b != 0)
}

// The position behind the head at a position, where it is told to be the shortest: one of the first half of the bytes behind its first is not 0.
fn skip_half(s: &[u8], at: usize, half: usize) -> Option<usize>
    requires { (at < length s.now) × Halved s.now at half }
    ensures { IfSome result (Skips s.now at) }
{
    let next = at + 1;
    if s.len() - next < 2 * half {
        return None;
    }
    first_set(s, next, half)?;
    Some(next + 2 * half)
}

// The same of a head that has two, four or eight bytes behind its first and is not a byte string's.
fn skip_wide(s: &[u8], at: usize) -> Option<usize>
    requires { at < length s.now }
    ensures { IfSome result (Skips s.now at) }
{
    let b = s[at];
    if b / 32 == 2 {
        return None;
    }
    match b % 32 {
        25 => skip_half(s, at, 1),
        26 => skip_half(s, at, 2),
        27 => skip_half(s, at, 4),
        _ => None,
    }
}

// The position behind the head at a position and behind a byte string's content, where one byte follows its first and it is the shortest, or
// by `skip_wide`. Where there is none, the number has to be read.
fn skip(s: &[u8], at: usize) -> Option<usize>
    requires { at < length s.now }
    ensures { IfSome result (Skips s.now at) }
{
    let b = s[at];
    if b % 32 != 24 {
        return skip_wide(s, at);
    }
    let next = at + 1;
    let n = *s.get(next)?;
    if n < 24 {
        return None;
    }
    Some(behind_of(s, b / 32, n as u64, next + 1))
}

// Whether one of the heads, which stand one behind the other up to the end of the bytes, is not the shortest. One whose first byte holds its
// number always is.
pub fn scan(s: &[u8]) -> bool
    ensures { result ≡ scanned s.now }
{
    let mut p: usize = 0;
    while p < s.len() {
        let b = s[p];
        if b % 32 < 24 {
            p = behind_of(s, b / 32, (b % 32) as u64, p + 1);
        } else if let Some(next) = skip(s, p) {
            p = next;
        } else {
            let h = cbor::read_head(s, p);
            if !cbor::is_shortest(h) {
                return true;
            }
            p = behind(s, h);
        }
    }
    false
}
