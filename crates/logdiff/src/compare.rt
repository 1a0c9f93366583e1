// Two logs that were read through are read again, and compared.
ghost use Rattle.std.specs.Prelude.{◌≡◌, IfOk};
ghost use Rattle.logdiff.specs.Turns.{Started, HasRoom, Kept, Stepped, Turned, GoneOn};

use crate::through::Log;
use crate::window::{ROOM, Room, Window};
use crate::{lines, say};
use log_compare::{Comparing, Side, Step};
use std::io::Print;
use text::Line;

// The output is written when fewer of its places are free than this: the longest line has 63 bytes.
const LINE: usize = 64;

// Where the comparison stands, and what is at hand of each log.
#[derive(Clone, Copy)]
struct Run<'a> {
    state: Comparing,
    first: Window<'a>,
    second: Window<'a>,
}

// The bytes of the logs that are at hand, and the output that waits to be written.
#[derive(Drop)]
pub(crate) struct Rooms {
    pub(crate) first: Room,
    pub(crate) second: Room,
    pub(crate) out: Line<ROOM>,
}

// Why a comparison ends: both logs are compared to their ends; a log is another one than was read through; the output is not taken.
#[derive(Clone, Copy, PartialEq, Eq)]
enum End {
    Over,
    Changed(Side),
    Unwritten,
}

// Compares the logs, and writes a line for each difference. A proved loop has to end, and nothing of the files says that it does: no run uses
// up so many turns.
pub(crate) fn compare_all(rt: &HostRuntime, one: &Log, two: &Log, rooms: &mut Rooms) {
    let mut run = Run::start(one, two, rooms);
    for _ in 0..u64::MAX {
        match run.go_on(rt, rooms) {
            Ok(next) => run = next,
            Err(end) => return finish(rt, end, &mut rooms.out),
        }
    }
}

// The last of the output: it ends with the line that says which log changed, if one did.
fn finish(rt: &HostRuntime, end: End, out: &mut Line<ROOM>) {
    match end {
        End::Over => say::tell(rt, out.as_slice()),
        End::Changed(log) => {
            if make_room(rt, out).is_err() {
                return say::say_unwritten(rt);
            }
            lines::put_fault(b"changed", u64::from(u32::from(log)), out);
            out.put(b"\n");
            say::tell(rt, out.as_slice());
        }
        End::Unwritten => say::say_unwritten(rt),
    }
}

impl<'a> Run<'a> {
    // At the front of both logs. No output waits.
    fn start(one: &'a Log, two: &'a Log, rooms: &mut Rooms) -> Run<'a>
        ensures { Started one.now two.now result rooms.new }
    {
        rooms.out.clear();
        Run {
            state: Comparing::start(),
            first: Window::start(one),
            second: Window::start(two),
        }
    }

    // A turn. Then, before the logs are read on, the output is written, where the next line may not fit.
    fn go_on(self, output: &impl Print, rooms: &mut Rooms) -> Result<Run<'a>, End>
        requires { HasRoom rooms.old }
        ensures { IfOk result (λ run. GoneOn self.entry rooms.old run rooms.new) }
    {
        let run = self.turn(rooms)?;
        make_room(output, &mut rooms.out)?;
        Ok(run)
    }

    // Something of each log is at hand, or it is at its end: then a step is made. Where a read brings nothing of the bytes that are left, the
    // log changed.
    fn turn(self, rooms: &mut Rooms) -> Result<Run<'a>, End>
        requires { HasRoom rooms.old }
        ensures { IfOk result (λ run. Turned self.entry rooms.old run rooms.new) }
    {
        let first = self.first.filled(&mut rooms.first);
        let second = self.second.filled(&mut rooms.second);
        let run = Run {
            first,
            second,
            ..self
        };
        if first.is_dry() {
            return Err(End::Changed(Side::First));
        }
        if second.is_dry() {
            return Err(End::Changed(Side::Second));
        }
        if first.is_empty() && second.is_empty() {
            return Err(run.at_end());
        }
        run.stepped(rooms)
    }

    // A step with what is at hand. A line is put for what it says only where both logs can have what their heads claim.
    fn stepped(self, rooms: &mut Rooms) -> Result<Run<'a>, End>
        requires { HasRoom rooms.old }
        ensures { IfOk result (λ run. Stepped self.entry rooms.old run rooms.new) }
    {
        let step = self.state.step(
            self.first.piece(&rooms.first),
            self.second.piece(&rooms.second),
        );
        if let Some(log) = self.other(step) {
            return Err(End::Changed(log));
        }
        let run = Run {
            state: step.state,
            first: self.first.taken(step.first),
            second: self.second.taken(step.second),
        };
        lines::put_said(step.said, &mut rooms.out);
        Ok(run)
    }

    // Both logs are at their ends, which lie between records unless one changed.
    fn at_end(self) -> End {
        if self.state.is_end() {
            End::Over
        } else {
            End::Changed(self.cut())
        }
    }

    // The log that is another one than was read through, as a step shows. With whole logs a step takes a byte, and a body is no longer than
    // what is left of the log.
    fn other(self, step: Step) -> Option<Side> {
        if step.first == 0 && step.second == 0 {
            return Some(self.cut());
        }
        if self.first.taken(step.first).is_short(step.state.first.left) {
            return Some(Side::First);
        }
        if self
            .second
            .taken(step.second)
            .is_short(step.state.second.left)
        {
            return Some(Side::Second);
        }
        None
    }

    // The log that ends inside a record, the first of the two if both do.
    fn cut(self) -> Side {
        let under = self.state.first;
        if self.first.is_empty() && (under.left != 0 || under.held % 6 != 0) {
            Side::First
        } else {
            Side::Second
        }
    }
}

// Writes the output that waits, where the next line may not fit.
fn make_room(output: &impl Print, out: &mut Line<ROOM>) -> Result<(), End>
    ensures { IfOk result (λ _. Kept out.old out.new) }
{
    if ROOM < out.as_slice().len() + LINE {
        output
            .write_all(out.as_slice())
            .map_err(|_| End::Unwritten)?;
        out.clear();
    }
    Ok(())
}
