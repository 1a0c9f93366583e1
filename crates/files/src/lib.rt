// What programs that read files have in common: arguments are read, the file that one names is opened, what cannot be read is said in a
// line, and words are found by number. Each line goes to the output `to`: one program says there on standard output, another on standard
// error.
#![tactic(auto)]

mod unread;
mod word;

ghost use Rattle.std.specs.Prelude.{◌≡◌, ◌<◌, ◌==◌, IfOk};
ghost use Rattle.std.specs.List.{position};
ghost use Rattle.std.specs.Io.{ReadsAtMost, WritesAtMost};
ghost use Rattle.files.specs.Words.{is_option, line_of, behind_line, behind_lines, row_of};

use std::env::FillError;
use std::fs::File;
use std::io::{Print, Read, Stdin};
use std::os::fd::{AsRawFd, IntoRawFd};
use std::rt::{Env, Files};
use std::{io, str};
pub use unread::{ESPIPE, Unread, number_of};
pub use word::Word;

// Places for an argument: the longest path of the system has one byte less.
pub const WORD: usize = 4096;

const STDIN: i32 = 0;

// What is read: standard input, or a file that is open.
#[derive(Drop)]
pub enum Source {
    Standard(Stdin),
    Named(File),
}

impl Source {
    // Closes a file. One that was given standard input's number, since that was closed, stays open, and is standard input from then on.
    pub fn close(self) {
        if let Source::Named(file) = self {
            if file.as_raw_fd() == STDIN {
                file.into_raw_fd();
            }
        }
    }
}

impl Read for Source {
    fn read(&mut self, buf: &mut [u8]) -> io::Result<usize> {
        match self {
            Source::Standard(input) => input.read(buf),
            Source::Named(file) => file.read(buf),
        }
    }
}

// How many arguments there are, with the program's own name.
pub fn arg_count(system: &impl Env) -> usize {
    let mut word = [0u8; 1];
    (0..usize::MAX)
        .find(|i| matches!(system.arg(*i, &mut word), Err(FillError::NotPresent)))
        .unwrap_or(usize::MAX)
}

// Puts an argument at the start of a buffer, and answers its length; or why it is no name.
pub fn arg(system: &impl Env, i: usize, word: &mut [u8]) -> Result<usize, Unread>
    ensures bound { WritesAtMost result word.new }
    ensures named { IfOk result (λ n. 0 < n) }
{
    match system.arg(i, word) {
        Ok(0) => Err(Unread::Empty),
        Ok(n) => Ok(n),
        Err(FillError::TooLong) => Err(Unread::TooLong),
        Err(FillError::NotPresent) => Err(Unread::Missing),
    }
}

// Whether an argument is an option, which begins with a dash. A dash alone is standard input.
#[tactic(auto, unfolding(crate::specs::Words::is_option))]
pub fn is_option(word: &[u8]) -> bool
    ensures { result ≡ is_option word.now }
{
    matches!(word, [b'-', _, ..])
}

// Standard input, or a file that is opened for reading.
pub fn opened(
    system: &impl Files<File = File>,
    input: Stdin,
    name: &[u8],
) -> Result<Source, Unread> {
    match name {
        b"-" => Ok(Source::Standard(input)),
        _ => Ok(Source::Named(opened_file(system, name)?)),
    }
}

// A file that is opened for reading. The system's library takes no name that is not UTF-8.
pub fn opened_file(system: &impl Files<File = File>, name: &[u8]) -> Result<File, Unread> {
    let Ok(path) = str::from_utf8(name) else {
        return Err(Unread::NotText);
    };
    Ok(File::open(system, path)?)
}

// One read into a buffer, and how many bytes came.
pub fn read(source: &mut impl Read, buffer: &mut [u8]) -> Result<usize, Unread>
    ensures { ReadsAtMost result buffer.new }
{
    Ok(source.read(buffer)?)
}

// Writes all of a text, and answers whether the output took it.
pub fn write(to: &impl Print, text: &[u8]) -> bool {
    to.write_all(text).is_ok()
}

// Writes a number in decimal digits, and answers the same.
pub fn write_decimal(to: &impl Print, n: u64) -> bool {
    to.print(n).is_ok()
}

// Writes that an input cannot be read, and why. Standard input has no name where no argument names it.
pub fn say_unread(to: &impl Print, name: &[u8], error: Unread) {
    if name.is_empty() {
        write(to, b"the input cannot be read\n");
        return;
    }
    write(to, name);
    say_reason(to, error);
}

// The same of an argument that is no name: it is empty, or longer than a path.
pub fn say_nameless(to: &impl Print, i: usize, error: Unread) {
    write(to, b"argument ");
    write_decimal(to, i as u64);
    say_reason(to, error);
}

// Writes that a program does not know an option.
// Stays four writes: an option is bytes, which the library prints as they are by no format.
pub fn say_unknown(to: &impl Print, option: &[u8], program: &[u8]) {
    write(to, option);
    write(to, b": unknown option; ");
    write(to, program);
    write(to, b" --help says what there is\n");
}

// Writes, behind a name, that it cannot be read and why, and a line end.
// Stays some writes, as all of a line that has a name in it: each is tried whatever became of the one before, so that an output that refuses
// one takes the others.
fn say_reason(to: &impl Print, error: Unread) {
    write(to, b": cannot be read: ");
    write(to, error.words());
    write(to, b"\n");
}

// Writes a row of a table and a line end. A table is a text with a line for each row.
// Stays a table in a text: the words of a reason are a row of one, and so are receive's of a refusal; `row_of` promises a row of any.
pub fn say_row(to: &impl Print, table: &[u8], row: usize) {
    write(to, row_of(table, row));
    write(to, b"\n");
}

// A row of a table, counted from 0, without its line end; nothing where there is no such row.
#[tactic(auto, unfolding(crate::specs::Words::row_of))]
pub fn row_of(table: &[u8], row: usize) -> &[u8]
    ensures { result.now ≡ row_of table.now row }
{
    line_of(behind_lines(table, row))
}

// The bytes behind so many line ends.
#[tactic(auto, using(crate::proofs::Lines::passes, crate::proofs::Lines::at_row, crate::proofs::Lines::none_left))]
fn behind_lines(bytes: &[u8], n: usize) -> &[u8]
    ensures { result.now ≡ behind_lines n bytes.now }
{
    let mut rest = bytes;
    for _ in 0..n {
        if rest.is_empty() {
            return rest;
        }
        rest = behind_line(rest);
    }
    rest
}

// The bytes behind the first line end.
#[tactic(auto, using(crate::proofs::Lines::from_end, crate::proofs::Lines::none_behind))]
fn behind_line(bytes: &[u8]) -> &[u8]
    ensures { result.now ≡ behind_line bytes.now }
{
    match line_end(bytes) {
        Some(i) => &bytes[i + 1..],
        None => &[],
    }
}

// The bytes before the first line end.
#[tactic(auto, using(crate::proofs::Lines::up_to_end, crate::proofs::Lines::one_line))]
fn line_of(bytes: &[u8]) -> &[u8]
    ensures { result.now ≡ line_of bytes.now }
{
    match line_end(bytes) {
        Some(i) => &bytes[..i],
        None => bytes,
    }
}

// The place of the first line end.
fn line_end(bytes: &[u8]) -> Option<usize>
    ensures { result ≡ position (λ b. b == 10) bytes.now }
{
    bytes.iter().position(|b| *b == b'\n')
}
