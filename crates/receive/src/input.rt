// One input: it is read in pieces, and each goes to the channel. Held are a piece of it, the channel's work area, one record and a text.
ghost use Rattle.std.specs.Prelude.{◌<◌, ◌≤◌, length, IfSome};

use crate::say;
use channel::Channel;
use files::Source;
use std::io::Print;

// As many bytes are read at a time.
const PIECE: usize = 65536;

// What is read, its name, and whether a line with the name stands before its lines.
#[derive(Drop)]
pub(crate) struct Input<'a> {
    pub(crate) source: Source,
    pub(crate) name: &'a [u8],
    pub(crate) is_titled: bool,
}

// The channel with its work area, an output for feed with room for the longest record, and how many bytes of the input the channel took.
#[derive(Drop)]
struct Run {
    channel: Channel,
    work: [u8; frame::WORK_AREA],
    out: [u8; frame::LONGEST_RECORD],
    place: u64,
}

// Reads an input to its end, or to what is refused, and writes its lines. It has a channel of its own. The input's name is written once it
// is known that the input can be read. A proved loop has to end, and nothing says that the input does: no run uses up so many turns.
pub(crate) fn take_input(input: &mut Input, output: &impl Print) {
    let mut piece = [0u8; PIECE];
    let mut run = Run {
        channel: Channel::fresh(),
        work: [0u8; frame::WORK_AREA],
        out: [0u8; frame::LONGEST_RECORD],
        place: 0,
    };
    for _ in 0..u64::MAX {
        match files::read(&mut input.source, &mut piece) {
            Ok(n) => {
                if input.is_titled && run.place == 0 {
                    say::say_title(input.name, output);
                }
                if n == 0 {
                    return say::say_end(run.channel.pending, output);
                }
                if run.take_all(&piece[..n], output).is_none() {
                    return;
                }
            }
            Err(error) => return files::say_unread(output, input.name, error),
        }
    }
}

impl Run {
    // Takes bytes in order. None where nothing more is read: something is refused, or the output is not taken.
    fn take_all(&mut self, bytes: &[u8], output: &impl Print) -> Option<()> {
        let mut rest = bytes;
        while !rest.is_empty() {
            let taken = self.take(rest, output)?;
            rest = &rest[taken..];
        }
        Some(())
    }

    // One call of feed, what there is to say of it, and how many bytes it took. Behind a record the output is too short for another, so that
    // the call stops before the last byte of the next frame: the record's request is finished before that frame is judged, however the input
    // came in pieces. 0 and 5 go on, any other number is said and ends the run. So does a call that took nothing, which would go on for ever;
    // the demands' `Progress` says that there is none.
    fn take(&mut self, bytes: &[u8], output: &impl Print) -> Option<usize>
        ensures { IfSome result (λ n. (0 < n) × (n ≤ length bytes.now)) }
    {
        let fed = self.channel.feed(&mut self.work, bytes, &mut self.out);
        let record = keys::part(&self.out, 0, fed.written);
        self.channel = finished(fed.channel, record);
        self.place = self.place.wrapping_add(fed.taken as u64);
        say::say_record(record, output).ok()?;
        if fed.taken == 0 || !matches!(fed.number, 0 | 5) {
            say::say_refusal(fed.number, self.place, output);
            return None;
        }
        Some(fed.taken)
    }
}

// The channel with the record's request finished, where the record made it run.
fn finished(channel: Channel, record: &[u8]) -> Channel {
    let head = records::read_head(record);
    if !head.runs() {
        return channel;
    }
    channel.finish(head.request).unwrap_or(channel)
}
