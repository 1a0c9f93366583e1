// Compares two stored logs record by record, and writes a line to standard output for each record that is not the same in both. Each log is
// read through for a break first. A log that is at fault is a line there too, and standard error says why it cannot be read; the exit
// status is 0 in any case.
#![tactic(auto)]

mod compare;
mod lines;
mod pieces;
mod say;
mod through;
mod window;

use compare::Rooms;
use files::{Source, Word};
use std::fs::OpenOptions;
use text::Line;
use window::ROOM;

fn main(rt: HostRuntime) {
    match files::arg_count(&rt) {
        2 if asks_help(&rt) => say::say_help(&rt),
        count if 3 < count => say::say_count(&rt, 3),
        count => {
            keep_input(&rt);
            compare_logs(&rt, count);
        }
    }
}

// Keeps the number of standard input, where that is closed, from the first log that is opened: else - would be that log as well. What takes
// it cannot be read.
fn keep_input(rt: &HostRuntime) {
    let mut options = OpenOptions::new();
    options.append(true);
    if let Ok(file) = options.open(rt, "/dev/null") {
        Source::Named(file).close();
    }
}

// Whether the first argument asks what the program does. Beside a second one it is a log's name.
fn asks_help(rt: &HostRuntime) -> bool {
    Word::of(rt, 1).is_ok_and(|word| matches!(word.as_slice(), b"--help"))
}

// Reads one log through, then the other, and compares them, all in the same rooms.
fn compare_logs(rt: &HostRuntime, count: usize) {
    let mut rooms = Rooms {
        first: [0; ROOM],
        second: [0; ROOM],
        out: Line::new(),
    };
    let Some(one) = through::look(rt, 1, count, &mut rooms.first) else {
        return;
    };
    let Some(two) = through::look(rt, 2, count, &mut rooms.second) else {
        return;
    };
    compare::compare_all(rt, &one, &two, &mut rooms);
}
