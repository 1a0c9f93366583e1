// Writes what is wrong with a log to standard output, in its one line, and what is said besides to standard error.
use crate::lines;
use files::Unread;
use text::Line;

// Room for each line on a fault.
const ROOM: usize = 64;

// Why a log is not compared: its argument is no name; it cannot be read; it ends inside a record, which starts at that
// place, counted from 0.
#[derive(Clone, Copy, Debug, PartialEq, Eq)]
pub(crate) enum Fault {
    Nameless(Unread),
    Unread(Unread),
    Broken(u64),
}

impl From<Unread> for Fault {
    fn from(error: Unread) -> Fault {
        Fault::Unread(error)
    }
}

// Writes what is wrong with a log: by its name, or by its argument's number where that is no name.
// Stays a number, `log`: it is the argument's, which is written, and log 3 is one too many.
pub(crate) fn say_fault(rt: &HostRuntime, log: usize, name: &[u8], fault: Fault) {
    match fault {
        Fault::Nameless(error) => {
            say_log(rt, log);
            files::say_nameless(&rt.stderr(), log, error);
        }
        Fault::Unread(error) => {
            say_log(rt, log);
            files::say_unread(&rt.stderr(), name, error);
        }
        Fault::Broken(place) => say_broken(rt, log, place),
    }
}

// Writes that a log is broken, and the place where the record starts that is not all there.
fn say_broken(rt: &HostRuntime, log: usize, place: u64) {
    let mut line = Line::<ROOM>::new();
    lines::put_fault(b"broken", log as u64, &mut line);
    lines::put_spaced(place, &mut line);
    line.put(b"\n");
    tell(rt, line.as_slice());
}

// Writes that a log is missing, or is one too many.
pub(crate) fn say_count(rt: &HostRuntime, log: usize) {
    say_log(rt, log);
    let _ = eprintln!(rt; "logdiff takes two logs; logdiff --help says what there is");
}

// Writes that a log cannot be read.
fn say_log(rt: &HostRuntime, log: usize) {
    let mut line = Line::<ROOM>::new();
    lines::put_fault(b"unread", log as u64, &mut line);
    line.put(b"\n");
    tell(rt, line.as_slice());
}

// Writes some lines to standard output. Where they are not taken, that is said.
pub(crate) fn tell(rt: &HostRuntime, text: &[u8]) {
    if !files::write(&rt.stdout(), text) {
        say_unwritten(rt);
    }
}

// Writes that standard output does not take the lines.
pub(crate) fn say_unwritten(rt: &HostRuntime) {
    let _ = eprintln!(rt; "the output cannot be written");
}

// Writes what the program does.
pub(crate) fn say_help(rt: &HostRuntime) {
    tell(
        rt,
        b"logdiff LOG1 LOG2\n\
          \n\
          Compares two stored logs, whose records have four-byte body lengths, record by record: their kinds and their bodies.\n\
          A LOG is a file, or standard input where it is -; that has to be a file too, since both logs are read twice: a pipe cannot be.\n\
          A line for each record that is not the same in both goes to standard output, no line where the logs are equal:\n\
          \n\
          3 5 7    record 3, counted from 1, differs; its body has 5 bytes in the first log and 7 in the second\n\
          8 20 -   the first log alone has record 8, with a body of 20 bytes\n\
          8 - 20   the second log alone has it\n\
          \n\
          Where a log is at fault, the first one that is, there is only one of these lines:\n\
          \n\
          broken 2 71   log 2 ends inside a record, which starts at byte 71, counted from 0\n\
          unread 1      log 1 cannot be read; standard error says why\n\
          \n\
          The last line may be this:\n\
          \n\
          changed 1     log 1 changed between the two readings: the lines before it are not all, and may be wrong\n\
          \n\
          A log that only grows meanwhile is compared as it was. The exit status does not tell: it is 0 in any case.\n",
    );
}
