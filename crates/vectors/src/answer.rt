// The lines that the program writes. A function that puts something puts it behind what a line has, as far as the line's room goes; the
// others take away what the line had.
ghost use Rattle.std.specs.Prelude.{◌≡◌, ◌++◌, take};
ghost use Rattle.cbor.specs.Cbor.{item_at};
ghost use Rattle.text.specs.Text.{appended, decimal_of, negative_of};
ghost use Rattle.vectors.specs.Answer.{room, fault_of, negative_word, kind_of, judgement_of, answer_of};
ghost use Rattle.vectors.specs.Said.{said_of, said_of_digits};

use crate::line::{Part, Reading};
use cbor::Item;
use text::Line;

// Room for the longest line, of 4,135 bytes: the 4,096 digits of an item's 2,048 bytes, 38 for the longest kind and number, and a newline.
pub const ROOM: usize = 4160;

// What there is to say of a whole line: nothing of one that is skipped.
pub fn said(reading: &Reading, line: &mut Line<ROOM>)
    ensures { line.new ≡ said_of reading.now.number reading.now.part reading.now.held reading.now.item }
{
    match reading.part {
        Part::Digits if reading.held == 0 => line.clear(),
        Part::Digits | Part::Note => said_of_digits(reading, line),
        Part::Comment => line.clear(),
        Part::NotHex => fault(reading.number, b"not hex", line),
        Part::TooLong => fault(reading.number, b"longer than 4096 digits", line),
    }
}

// What is wrong with a line that cannot be read, as far as the room goes.
pub fn fault<const N: usize>(number: u64, what: &[u8], line: &mut Line<N>)
    ensures { line.new ≡ take N (fault_of number what.now) }
{
    line.clear();
    line.put(b"line ");
    line.put_decimal(number);
    line.put(b": ");
    line.put(what);
    line.put(b"\n");
}

// The same as `said`, for a line of digits alone, or of digits and a note. Where `held` counts more digits than the item has, the whole
// item is judged.
fn said_of_digits(reading: &Reading, line: &mut Line<ROOM>)
    ensures { line.new ≡ said_of_digits reading.now.number reading.now.held reading.now.item }
{
    if reading.held == 0 {
        return fault(reading.number, b"no digits", line);
    }
    if reading.held % 2 == 1 {
        return fault(reading.number, b"an odd number of digits", line);
    }
    judged(
        &reading.item[..(reading.held / 2).min(frame::MAX_COMMAND)],
        line,
    );
}

// The bytes in hex, and what they are, as far as the room goes.
fn judged(item: &[u8], line: &mut Line<ROOM>)
    ensures { line.new ≡ take room (answer_of item.now) }
{
    line.clear();
    line.put_hex(item);
    put_judgement(item, line);
    line.put(b"\n");
}

// Whether the bytes are one item of the subset, and then its kind.
fn put_judgement<const N: usize>(item: &[u8], line: &mut Line<N>)
    ensures { line.new ≡ appended N line.old (judgement_of item.now) }
{
    if cbor::is_item(item) {
        put_kind(item, line);
    } else {
        line.put(b" outside");
    }
}

// The kind of the first item, and its value.
fn put_kind<const N: usize>(item: &[u8], line: &mut Line<N>)
    ensures { line.new ≡ appended N line.old (kind_of (item_at item.now 0)) }
{
    match cbor::read_item(item, 0) {
        Some(Item::Unsigned(n, _)) => put_counted(b" within unsigned ", n, line),
        Some(Item::Negative(n, _)) => put_below(n, line),
        Some(Item::Bytes(start, stop)) => put_counted(
            b" within bytes ",
            (stop - start) as u64,
            line,
        ),
        Some(Item::Simple(_)) => line.put(b" within simple"),
        Some(Item::Array(n, _)) => put_counted(b" within array ", n, line),
        Some(Item::Map(n, _)) => put_counted(b" within map ", n, line),
        Some(Item::Set(n, _)) => put_counted(b" within set ", n, line),
        None => line.put(b" outside"),
    }
}

// A kind's words, and a number.
fn put_counted<const N: usize>(words: &[u8], n: u64, line: &mut Line<N>)
    ensures { line.new ≡ appended N line.old (words.now ++ decimal_of n) }
{
    line.put(words);
    line.put_decimal(n);
}

// A negative integer, -1-n.
fn put_below<const N: usize>(n: u64, line: &mut Line<N>)
    ensures { line.new ≡ appended N line.old (negative_word ++ negative_of n) }
{
    line.put(b" within negative ");
    line.put_negative(n);
}
