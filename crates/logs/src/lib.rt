// Stored logs: the converter from two-byte to four-byte lengths.
#![tactic(auto)]

mod records;

ghost use Rattle.std.specs.Prelude.{◌≡◌, ◌+◌, ◌≤◌, length};
ghost use Rattle.buffer.specs.Bytes.{write};
ghost use Rattle.logs.specs.Logs.{whole_length};
ghost use Rattle.logs.specs.Convert.{number_of, answered, wider, convert_of};
ghost use Rattle.logs.specs.Steps.{widened};

pub use records::{Records, record_length};

// Why a log is not converted: it ends inside a record, 70; the output is shorter than the exact total, 71.
#[derive(Clone, Copy, PartialEq, Eq)]
pub enum Refusal {
    EndsInside,
    ShortOutput,
}

impl From<Refusal> for u32 {
    ghost from_gives = { λ refusal number. number ≡ number_of refusal };

    fn from(refusal: Refusal) -> u32 {
        match refusal {
            Refusal::EndsInside => 70,
            Refusal::ShortOutput => 71,
        }
    }
}

// The whole records in front of a log: the bytes that they take, and those that they take when rewritten.
#[derive(Clone, Copy)]
struct Front {
    length: usize,
    total: usize,
}

// Rewrites a log with two-byte lengths into one with four-byte lengths, and answers the bytes written. It refuses, in this order and with the
// output unchanged: the log ends inside a record, the output is shorter than the exact total.
pub fn convert(log: &[u8], out: &mut [u8]) -> Result<usize, Refusal>
    ensures { answered result out.new ≡ convert_of log.now out.old }
{
    let front = measured(log);
    if front.length != log.len() {
        return Err(Refusal::EndsInside);
    }
    if out.len() < front.total {
        return Err(Refusal::ShortOutput);
    }
    put_all(log, out);
    Ok(front.total)
}

// How many bytes the whole records in front of a log take: all of them, or those before a broken record.
pub fn whole(log: &[u8]) -> usize
    ensures { result ≡ whole_length 2 log.now }
{
    measured(log).length
}

fn measured(log: &[u8]) -> Front
    ensures { result ≡ record { length = whole_length 2 log.now; total = length (wider log.now) } }
{
    let mut front = Front {
        length: 0,
        total: 0,
    };
    for record in Records::<2>::of(log) {
        front.length += record.len();
        front.total += record.len() + 2;
    }
    front
}

// Puts the whole records, rewritten, to the front of an output.
fn put_all(log: &[u8], out: &mut [u8])
    requires { length (wider log.now) ≤ length out.old }
    ensures { out.new ≡ write out.old 0 (wider log.now) }
{
    let mut to: usize = 0;
    for record in Records::<2>::of(log) {
        put_record(record, out, to);
        to += record.len() + 2;
    }
}

// Puts a record with a two-byte length, given as its bytes, from a place on with a four-byte length.
fn put_record(stored: &[u8], out: &mut [u8], to: usize)
    requires { (4 ≤ length stored.now) × (to + 4 ≤ length out.old) }
    ensures { out.new ≡ write out.old to (widened stored.now) }
{
    let body = (stored.len() - 4) as u64;
    buffer::put(out, to, &body.to_le_bytes()[..4]);
    buffer::put(out, to + 4, &stored[2..]);
}
