// Converts a stored log: records with two-byte body lengths become records with four-byte ones. The log is standard input, or the file that
// the one argument names, and the new log goes to standard output. What is wrong is said on standard error; the exit status
// is 0 in any case.
#![tactic(auto)]

mod input;
mod run;
mod say;

use files::{Source, Word};

fn main(rt: HostRuntime) {
    match files::arg_count(&rt) {
        0 | 1 => convert_source(&rt, Source::Standard(rt.stdin()), b""),
        2 => take_argument(&rt),
        _ => say::say_many(&rt.stderr()),
    }
}

// Does what the argument asks. One that is empty, or longer than a path, is no name.
// Stays beside the like functions of receive: one for both would be handed the help, the name, the outputs and what is done with a file.
fn take_argument(rt: &HostRuntime) {
    match Word::of(rt, 1) {
        Ok(word) => take_word(rt, word.as_slice()),
        Err(error) => files::say_nameless(&rt.stderr(), 1, error),
    }
}

// An option, or a log's name.
fn take_word(rt: &HostRuntime, word: &[u8]) {
    match word {
        b"--help" => say::say_help(&rt.stdout()),
        _ if files::is_option(word) => files::say_unknown(&rt.stderr(), word, b"convert"),
        _ => take_file(rt, word),
    }
}

// Opens a log and converts it. The file stays open to the program's end, which follows.
fn take_file(rt: &HostRuntime, name: &[u8]) {
    match files::opened(rt, rt.stdin(), name) {
        Ok(source) => convert_source(rt, source, name),
        Err(error) => files::say_unread(&rt.stderr(), name, error),
    }
}

// Converts a log from standard input or from a file.
fn convert_source(rt: &HostRuntime, mut source: Source, name: &[u8]) {
    if let Err(fault) = input::convert_input(&mut source, &rt.stdout()) {
        say::say_fault(&rt.stderr(), name, fault);
    }
}
