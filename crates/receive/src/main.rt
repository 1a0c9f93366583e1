// Reads captures of the line, the bytes that clients sent, and writes a line for each record that the channel makes of them. The arguments
// name the files; with none it is standard input.
#![tactic(auto)]

mod diagnostic;
mod input;
mod line;
mod say;
mod words;

use files::{Source, Word};
use input::Input;

fn main(rt: HostRuntime) {
    let count = files::arg_count(&rt);
    if count < 2 {
        take_standard(&rt);
        return;
    }
    for i in 1..count {
        take_argument(&rt, i, 2 < count);
    }
}

// Standard input, which has no name.
fn take_standard(rt: &HostRuntime) {
    let mut input = Input {
        source: Source::Standard(rt.stdin()),
        name: b"",
        is_titled: false,
    };
    input::take_input(&mut input, rt);
}

// Does what an argument asks. One that is empty, or longer than a path, is no name.
// Stays beside the like functions of convert: one for both would be handed the help, the name, the outputs and what is done with a file.
fn take_argument(rt: &HostRuntime, i: usize, is_titled: bool) {
    match Word::of(rt, i) {
        Ok(word) => take_word(rt, word.as_slice(), is_titled),
        Err(error) => files::say_nameless(rt, i, error),
    }
}

// An option, or a file's name.
fn take_word(rt: &HostRuntime, word: &[u8], is_titled: bool) {
    match word {
        b"--help" => say::say_help(rt),
        _ if files::is_option(word) => files::say_unknown(rt, word, b"receive"),
        _ => take_file(rt, word, is_titled),
    }
}

// Opens a file, takes what is in it and closes it. Standard input stays open, for an argument behind.
fn take_file(rt: &HostRuntime, name: &[u8], is_titled: bool) {
    match files::opened(rt, rt.stdin(), name) {
        Ok(source) => {
            let mut input = Input {
                source,
                name,
                is_titled,
            };
            input::take_input(&mut input, rt);
            let source = input.source;
            source.close();
        }
        Err(error) => files::say_unread(rt, name, error),
    }
}
