// One log: it is read in pieces. Held are a record that is not all there yet and the piece behind it. The whole records of what is held are
// converted and written, and the rest stays held.
ghost use Rattle.std.specs.Prelude.{◌+◌, ◌≤◌, length, take, IfOk};
ghost use Rattle.convert.specs.Sizes.{room_length};
ghost use Rattle.convert.specs.Turns.{Rewritten, Turned};

use crate::run::Run;
use crate::say::Fault;
use files::Unread;
use std::io::{Print, Read};

// The longest record with a two-byte length has 65,539 bytes. So behind one that is not all there the room always has places for the next
// piece.
const ROOM: usize = 131072;

// The new log of a full room: a record has at least four bytes, and becomes two bytes longer.
const OUTPUT: usize = 196608;

type Room = [u8; ROOM];

type Output = [u8; OUTPUT];

// How many bytes the whole records in front take, and how many they take in the new form.
// Stays beside the like struct of logs, which is private there: what it says is proved of `whole` and `convert`.
#[derive(Clone, Copy)]
struct Front {
    taken: usize,
    written: usize,
}

// Reads a log to its end and writes the new one. A proved loop has to end, and nothing says that the log does: no run uses up so many turns.
pub(crate) fn convert_input(input: &mut impl Read, output: &impl Print) -> Result<(), Fault> {
    let mut room = [0u8; ROOM];
    let mut out = [0u8; OUTPUT];
    let mut run = Run::start();
    for _ in 0..u64::MAX {
        let n = run.read(input, &mut room)?;
        if n == 0 {
            return run.at_end();
        }
        run = run.convert(n, output, &mut room, &mut out)?;
    }
    Ok(())
}

impl Run {
    // Before the first byte.
    fn start() -> Run {
        Run { held: 0, place: 0 }
    }

    // Reads once, behind the bytes held, and answers how many bytes came.
    fn read(self, input: &mut impl Read, room: &mut Room) -> Result<usize, Unread>
        ensures { IfOk result (λ n. self.held + n ≤ room_length) }
    {
        files::read(input, &mut room[self.held..])
    }

    // The end of the log, which may lie inside a record.
    fn at_end(self) -> Result<(), Fault> {
        match self.held {
            0 => Ok(()),
            _ => Err(Fault::Broken(self.place)),
        }
    }

    // Converts the whole records of the bytes held and of those that came, writes them, and moves the rest to the front. Where none is whole,
    // the rest stands there already, and no byte is moved: else a log in small pieces would cost the square of a record's length.
    fn convert(
        self,
        came: usize,
        output: &impl Print,
        room: &mut Room,
        out: &mut Output,
    ) -> Result<Run, Fault>
        requires { self.held + came ≤ room_length }
        ensures { IfOk result (λ run. Turned (take (self.held + came) room.old) self.place run room.new) }
    {
        let held = self.held + came;
        let front = convert_front(&room[..held], out);
        output
            .write_all(&out[..front.written])
            .map_err(|_| Fault::Unwritten)?;
        if 0 < front.taken {
            room.copy_within(front.taken..held, 0);
        }
        Ok(Run {
            held: held - front.taken,
            place: self.place.wrapping_add(front.taken as u64),
        })
    }
}

// Puts the new form of the whole records in front of some bytes to the front of the output.
fn convert_front(bytes: &[u8], out: &mut Output) -> Front
    requires { length bytes.now ≤ room_length }
    ensures front { Rewritten bytes.now result out.new }
    ensures within { (result.taken ≤ length bytes.now) × (result.written ≤ length out.new) }
{
    let taken = logs::whole(bytes);
    let written = logs::convert(&bytes[..taken], out).unwrap();
    Front { taken, written }
}
