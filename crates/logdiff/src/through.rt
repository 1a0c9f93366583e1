// A log is opened and read through for a break, in pieces.
ghost use Rattle.std.specs.Prelude.{◌≡◌, take, IfOk};
ghost use Rattle.log_compare.specs.Scan.{scan_view, scan_of};
ghost use Rattle.logdiff.specs.Turns.{Judged};

use crate::say::Fault;
use crate::window::Room;
use crate::{pieces, say};
use files::{Source, Unread, Word};
use log_compare::Scanning;
use std::fs;
use std::fs::File;
use std::io::{IsTerminal, Stdin};
use std::os::unix::fs::FileTypeExt;

// A log that is open and whole, and how many bytes it has.
#[derive(Drop)]
pub(crate) struct Log {
    pub(crate) file: File,
    pub(crate) length: u64,
}

// How far a log is read through, and how many bytes the last read brought, to the front of the room.
#[derive(Clone, Copy)]
struct Reading {
    scan: Scanning,
    held: usize,
}

// Opens the log that an argument names, of so many with the program's own name, and reads it through, in a room that is lent. What is at
// fault is said.
// Stays a number, `log`: a `Side` would be turned into the argument's number again, and log 3, one too many, is said too.
pub(crate) fn look(rt: &HostRuntime, log: usize, count: usize, room: &mut Room) -> Option<Log> {
    if count <= log {
        say::say_count(rt, log);
        return None;
    }
    match Word::of(rt, log) {
        Ok(word) => look_at(rt, log, word.as_slice(), room),
        Err(error) => {
            say::say_fault(rt, log, b"", Fault::Nameless(error));
            None
        }
    }
}

// The same of a log's name.
fn look_at(rt: &HostRuntime, log: usize, name: &[u8], room: &mut Room) -> Option<Log> {
    match whole_log(rt, name, room) {
        Ok(found) => Some(found),
        Err(fault) => {
            say::say_fault(rt, log, name, fault);
            None
        }
    }
}

// The log of that name, if it can be read to its end and is whole.
fn whole_log(rt: &HostRuntime, name: &[u8], room: &mut Room) -> Result<Log, Fault> {
    let file = opened(rt, name)?;
    let reading = read_through(&file, room);
    judged(file, reading)
}

// A file that can be read by place.
fn opened(rt: &HostRuntime, name: &[u8]) -> Result<File, Unread> {
    match files::opened(rt, rt.stdin(), name)? {
        Source::Standard(input) => opened_again(rt, input),
        Source::Named(file) => Ok(file),
    }
}

// Standard input as a file that can be read by place: the system opens it again, under its number, so it has to be a file that may be opened.
// What has no places, or cannot be read at all, fails as a read by place of the input itself does: a read of no bytes says what is closed, a
// folder, or open for writing only.
fn opened_again(rt: &HostRuntime, mut input: Stdin) -> Result<File, Unread> {
    if input.is_terminal() || is_pipe(rt) {
        return Err(Unread::Pipe);
    }
    files::read(&mut input, &mut [])?;
    files::opened_file(rt, INPUT.as_bytes())
}

// Standard input by its number.
const INPUT: &str = "/proc/self/fd/0";

// Whether standard input is a pipe, or a socket. It is not inlined, so that the library's copy of the path is on the stack only meanwhile.
#[inline(never)]
fn is_pipe(rt: &HostRuntime) -> bool {
    fs::metadata(rt, INPUT).is_ok_and(|found| {
        let kind = found.file_type();
        kind.is_fifo() || kind.is_socket()
    })
}

// Reads a log to its end. A proved loop has to end, and nothing says that the log does: no run uses up so many turns.
fn read_through(file: &File, room: &mut Room) -> Result<Scanning, Unread> {
    let mut scan = Scanning::start();
    for _ in 0..u64::MAX {
        let reading = read_some(scan, file, room)?;
        scan = reading.scan;
        if reading.held == 0 {
            return Ok(scan);
        }
    }
    Ok(scan)
}

// Reads once, where the bytes end that were taken, and takes what came.
fn read_some(scan: Scanning, file: &File, room: &mut Room) -> Result<Reading, Unread>
    ensures { IfOk result (λ r. scan_view r.scan ≡ scan_of (scan_view scan) (take r.held room.new)) }
{
    let held = pieces::read_at(file, scan.place, room)?;
    Ok(Reading {
        scan: scan.scan(&room[..held]),
        held,
    })
}

// What a log is that was read to its end, or as far as it can be read.
fn judged(file: File, reading: Result<Scanning, Unread>) -> Result<Log, Fault>
    ensures { Judged reading result }
{
    let scan = reading?;
    if scan.start != scan.place {
        return Err(Fault::Broken(scan.start));
    }
    Ok(Log {
        file,
        length: scan.place,
    })
}
