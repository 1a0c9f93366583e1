// A line as it comes in, byte by byte: what part of it is being read, and the digits so far, two to a byte of the item.
// An item has at most 2,048 bytes, 4,096 digits.
ghost use Rattle.std.specs.Prelude.{◌+◌, ◌*◌, ◌/◌, ◌<◌, ◌≡◌, length, IfOk};
ghost use Rattle.frame.specs.Limits.{max_command};
ghost use Rattle.text.specs.Digit.{digit_of};
ghost use Rattle.vectors.specs.Digits.{Stored};
ghost use Rattle.vectors.specs.Taken.{first_line, line_after, following as number_after, part_after, digit_or, Taken};

// What the rest of the line is: digits, text that is not read, or, once the line is known to be wrong, anything.
// Stays one enum, wrong lines too: a wrong line is read on to its end as a note is (`part_after` in specs/Taken.antt).
#[derive(Clone, Copy, PartialEq, Eq, Debug)]
pub enum Part {
    Digits,
    Note,
    Comment,
    NotHex,
    TooLong,
}

// `number` counts lines from 1, `held` the line's digits, whose bytes stand at the start of `item`.
#[derive(Drop)]
pub struct Reading {
    pub number: u64,
    pub held: usize,
    pub part: Part,
    pub item: [u8; frame::MAX_COMMAND],
}

// An item has at most as many bytes as a command, each in two digits.
const MOST_DIGITS: usize = 2 * frame::MAX_COMMAND;

impl Reading {
    // Before the first byte.
    pub fn first() -> Self
        ensures { result ≡ first_line }
    {
        Reading {
            number: 1,
            held: 0,
            part: Part::Digits,
            item: [0; frame::MAX_COMMAND],
        }
    }

    // The line after.
    pub fn next(&mut self)
        ensures { self.new ≡ line_after self.old }
    {
        self.number = following(self.number);
        self.held = 0;
        self.part = Part::Digits;
    }

    // Takes a byte where a digit may stand.
    pub fn take_digit(&mut self, b: u8)
        ensures { Taken self.old b self.new }
    {
        self.part = match counted_digit(self.held, b) {
            Ok(d) => {
                store(d, self.held, &mut self.item);
                self.held += 1;
                Part::Digits
            }
            Err(part) => part,
        };
    }
}

// The value of a digit that counts, or the part that another byte leads to.
fn counted_digit(held: usize, b: u8) -> Result<u8, Part>
    ensures value { result ≡ digit_or (digit_of b) (part_after held b) }
    ensures fits { IfOk result (λ d. (d < 16) × (held < 2 * max_command)) }
{
    if b == b' ' || b == b'\t' {
        return Err(Part::Note);
    }
    if b == b'#' && held == 0 {
        return Err(Part::Comment);
    }
    let Some(d) = text::digit(b) else {
        return Err(Part::NotHex);
    };
    if MOST_DIGITS <= held {
        return Err(Part::TooLong);
    }
    Ok(d)
}

// The next line's number. The last one that a u64 holds stays; no input has so many lines.
fn following(number: u64) -> u64
    ensures { result ≡ number_after number }
{
    number.saturating_add(1)
}

// Puts the digit d, which is the digit number k of its line, counted from 0, into its half of a byte.
fn store(d: u8, k: usize, item: &mut [u8])
    requires { (d < 16) × (k / 2 < length item.old) }
    ensures { Stored d k item.old item.new }
{
    let i = k / 2;
    if k % 2 == 0 {
        item[i] = d * 16;
    } else {
        item[i] = item[i] / 16 * 16 + d;
    }
}
