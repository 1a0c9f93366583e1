// Text put into a buffer, one piece after another: into one that the caller lends, or into a line of fixed room. Each function on a lent
// buffer puts its piece at `at` and answers the position after it. What does not fit is left out, and a position past the end is answered
// as it is.
#![tactic(auto)]

ghost use Rattle.std.specs.Prelude.{◌≡◌, [], length, drop, ◌≤◌, ◌<◌};
ghost use Rattle.text.specs.Text.{Added, appended, glyph_of, hex_of, decimal_of, negative_of};
ghost use Rattle.text.specs.Digit.{as_digit};

use std::marker::Model;

// A text of at most N bytes. Each method puts its piece behind what is there, as far as the room goes.
#[derive(Drop)]
pub struct Line<const N: usize> {
    bytes: [u8; N],
    length: usize,
}

// Clauses see the text.
impl<const N: usize> Model for Line<N> {
    ghost use Rattle.std.specs.Prelude.{List, ℕ, take, ◌≤◌};

    ghost Value = { List ℕ };

    ghost view = { λ l. take l.length l.bytes };

    ghost invariant = { λ l. l.length ≤ N };
}

impl<const N: usize> Line<N> {
    // A line with no text.
    pub fn new() -> Self
        ensures { result ≡ [] }
    {
        Line {
            bytes: [0; N],
            length: 0,
        }
    }

    // The text.
    pub fn as_slice(&self) -> &[u8]
        ensures { result.now ≡ self.now }
    {
        &self.bytes[..self.length]
    }

    // Takes the text away.
    pub fn clear(&mut self)
        ensures { self.new ≡ [] }
    {
        self.length = 0;
    }

    // The bytes as they are.
    pub fn put(&mut self, words: &[u8])
        ensures { self.new ≡ appended N self.old words.now }
    {
        self.length = put(words, &mut self.bytes, self.length);
    }

    // Each byte as two lower-case hex digits.
    pub fn put_hex(&mut self, bytes: &[u8])
        ensures { self.new ≡ appended N self.old (hex_of bytes.now) }
    {
        self.length = put_hex(bytes, &mut self.bytes, self.length);
    }

    // A number in decimal.
    pub fn put_decimal(&mut self, n: u64)
        ensures { self.new ≡ appended N self.old (decimal_of n) }
    {
        self.length = put_decimal(n, &mut self.bytes, self.length);
    }

    // The number -1-n in decimal.
    pub fn put_negative(&mut self, n: u64)
        ensures { self.new ≡ appended N self.old (negative_of n) }
    {
        self.length = put_negative(n, &mut self.bytes, self.length);
    }
}

// The bytes as they are.
pub fn put(words: &[u8], out: &mut [u8], at: usize) -> usize
    ensures { Added out.old at words.now out.new result }
{
    buffer::put(out, at, words);
    at + words.len().min(out.len().saturating_sub(at))
}

// Each byte as two lower-case hex digits. Where only the first digit of a byte fits, it is put.
pub fn put_hex(bytes: &[u8], out: &mut [u8], at: usize) -> usize
    ensures { Added out.old at (hex_of bytes.now) out.new result }
{
    let n = bytes.len().min(out.len().saturating_sub(at) / 2);
    let mut p = at;
    for b in &bytes[..n] {
        out[p] = glyph(*b / 16);
        out[p + 1] = glyph(*b % 16);
        p += 2;
    }
    if n < bytes.len() {
        return put(&[glyph(bytes[n] / 16)], out, p);
    }
    p
}

// A number in decimal.
// Stays digits by hand, on a lent buffer and a place: the library prints a number to a String or a fmt::Write, and this is neither.
pub fn put_decimal(n: u64, out: &mut [u8], at: usize) -> usize
    ensures { Added out.old at (decimal_of n) out.new result }
{
    let mut digits = [0u8; 20];
    let start = spell(n, &mut digits);
    put(&digits[start..], out, at)
}

// The number -1-n in decimal. For the largest n that is -2^64, whose digits no u64 holds.
pub fn put_negative(n: u64, out: &mut [u8], at: usize) -> usize
    ensures { Added out.old at (negative_of n) out.new result }
{
    if n == u64::MAX {
        return put(b"-18446744073709551616", out, at);
    }
    let p = put(b"-", out, at);
    put_decimal(n + 1, out, p)
}

// The value of a hex digit in either case.
// Stays a match: `char::to_digit` answers a u32, which would have to be cut to a byte.
pub fn digit(b: u8) -> Option<u8>
    ensures { result ≡ as_digit b }
{
    match b {
        b'0'..=b'9' => Some(b - b'0'),
        b'A'..=b'F' => Some(b - b'A' + 10),
        b'a'..=b'f' => Some(b - b'a' + 10),
        _ => None,
    }
}

// Puts n's decimal digits at the end of `digits`, and answers where they start.
fn spell(n: u64, digits: &mut [u8; 20]) -> usize
    ensures { (result ≤ 20) × (drop result digits.new ≡ decimal_of n) }
{
    let mut rest = n;
    for i in (0..20).rev() {
        digits[i] = b'0' + (rest % 10) as u8;
        rest /= 10;
        if rest == 0 {
            return i;
        }
    }
    0
}

// The lower-case digit of a value.
// Stays an if: `char::from_digit` answers an Option of a char, which would have to be unwrapped and cut to a byte.
fn glyph(d: u8) -> u8
    requires { d < 16 }
    ensures { result ≡ glyph_of d }
{
    if d < 10 { b'0' + d } else { b'a' - 10 + d }
}
