// The lines of the output. What does not fit a line's room is left out.
ghost use Rattle.std.specs.Prelude.{◌≡◌, ◌≤◌, ◌∷◌, length};
ghost use Rattle.text.specs.Text.{appended, decimal_of};
ghost use Rattle.logdiff.specs.Lines.{fault_of, length_of, record_of, line_of, lines_of};

use log_compare::Entry;
use text::Line;

// The line of what is said, if anything is.
#[tactic(auto, using(crate::proofs::Turning::nothing), unfolding(crate::specs::Lines::lines_of))]
pub(crate) fn put_said<const N: usize>(said: Option<Entry>, line: &mut Line<N>)
    requires { length line.old ≤ N }
    ensures { line.new ≡ appended N line.old (lines_of said) }
{
    match said {
        Some(entry) => put_entry(entry, line),
        None => {}
    }
}

// An entry's line.
#[tactic(auto, unfolding(crate::specs::Lines::line_of))]
fn put_entry<const N: usize>(entry: Entry, line: &mut Line<N>)
    ensures { line.new ≡ appended N line.old (line_of entry) }
{
    match entry {
        Entry::Both(n, a, b) => put_record(n, Some(a), Some(b), line),
        Entry::First(n, a) => put_record(n, Some(a), None, line),
        Entry::Second(n, b) => put_record(n, None, Some(b), line),
    }
}

// A record's number, and the length of its body in each log.
fn put_record<const N: usize>(n: u64, first: Option<u64>, second: Option<u64>, line: &mut Line<N>)
    ensures { line.new ≡ appended N line.old (record_of n first second) }
{
    line.put_decimal(n);
    put_length(first, line);
    put_length(second, line);
    line.put(b"\n");
}

// A space and a length, or a dash where the log lacks the record.
#[tactic(auto, unfolding(crate::specs::Lines::length_of))]
fn put_length<const N: usize>(length: Option<u64>, line: &mut Line<N>)
    ensures { line.new ≡ appended N line.old (length_of length) }
{
    match length {
        Some(n) => put_spaced(n, line),
        None => line.put(b" -"),
    }
}

// A space and a number.
pub(crate) fn put_spaced<const N: usize>(n: u64, line: &mut Line<N>)
    ensures { line.new ≡ appended N line.old (32 ∷ decimal_of n) }
{
    line.put(b" ");
    line.put_decimal(n);
}

// What is wrong, and with which log.
pub(crate) fn put_fault<const N: usize>(word: &[u8], log: u64, line: &mut Line<N>)
    ensures { line.new ≡ appended N line.old (fault_of word.now log) }
{
    line.put(word);
    put_spaced(log, line);
}
