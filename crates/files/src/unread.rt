// Why something cannot be read, the number of it and the words for it.
ghost use Rattle.std.specs.Prelude.{◌≡◌};
ghost use Rattle.std.specs.IoError.{raw_os_error};
ghost use Rattle.files.specs.Reasons.{case_of, error_number, number_of, reason_of, row_number, words_of};

use std::error::Error;
use std::{fmt, io, str};

// Numbers of the system, which are Linux's.
const ENOENT: i32 = 2;

const EACCES: i32 = 13;

const ENOTDIR: i32 = 20;

const EISDIR: i32 = 21;

pub const ESPIPE: i32 = 29;

const ENAMETOOLONG: i32 = 36;

// No numbers of the system: that a name is empty, that it is not UTF-8, and that an error has no number.
const EMPTY: i32 = 0;

const NOT_TEXT: i32 = -2;

const NO_NUMBER: i32 = -1;

// A name is empty, too long or not UTF-8; what it names is missing, denied, a folder or a pipe, or lies behind a part of the path that is no
// folder; or the system refuses it for another reason, which is told by its number.
#[derive(Clone, Copy, Debug, PartialEq, Eq)]
pub enum Unread {
    Empty,
    TooLong,
    NotText,
    Missing,
    Denied,
    Folder,
    NotFolder,
    Pipe,
    Refused(i32),
}

impl Unread {
    // Its number: the system's, or one that the system does not have.
    pub fn number(self) -> i32
        ensures { result ≡ number_of self }
    {
        match self {
            Unread::Empty => EMPTY,
            Unread::TooLong => ENAMETOOLONG,
            Unread::NotText => NOT_TEXT,
            Unread::Missing => ENOENT,
            Unread::Denied => EACCES,
            Unread::Folder => EISDIR,
            Unread::NotFolder => ENOTDIR,
            Unread::Pipe => ESPIPE,
            Unread::Refused(number) => number,
        }
    }

    // The words for it, which are a row of a table.
    pub fn words(self) -> &'static [u8]
        ensures { result.now ≡ words_of self }
    {
        crate::row_of(
            b"the name is empty\n\
              the name is too long\n\
              no such file\n\
              permission denied\n\
              it is a folder\n\
              a part of the path is no folder\n\
              it is a pipe\n\
              the name is not UTF-8\n\
              the system refuses it\n",
            self.row(),
        )
    }

    fn row(self) -> usize
        ensures { result ≡ row_number self }
    {
        match self {
            Unread::Empty => 0,
            Unread::TooLong => 1,
            Unread::Missing => 2,
            Unread::Denied => 3,
            Unread::Folder => 4,
            Unread::NotFolder => 5,
            Unread::Pipe => 6,
            Unread::NotText => 7,
            Unread::Refused(_) => 8,
        }
    }
}

impl From<i32> for Unread {
    ghost from_gives = { λ number r. r ≡ case_of number };

    fn from(number: i32) -> Unread {
        match number {
            EMPTY => Unread::Empty,
            ENOENT => Unread::Missing,
            EACCES => Unread::Denied,
            ENOTDIR => Unread::NotFolder,
            EISDIR => Unread::Folder,
            ESPIPE => Unread::Pipe,
            ENAMETOOLONG => Unread::TooLong,
            NOT_TEXT => Unread::NotText,
            _ => Unread::Refused(number),
        }
    }
}

impl From<io::Error> for Unread {
    ghost from_gives = { λ error r. r ≡ reason_of (raw_os_error error) };

    fn from(error: io::Error) -> Unread {
        Unread::from(number_of(error))
    }
}

// The number of an error, or -1 where it is none of the system's.
pub fn number_of(error: io::Error) -> i32
    ensures { result ≡ error_number (raw_os_error error) }
{
    error.raw_os_error().unwrap_or(NO_NUMBER)
}

impl fmt::Display for Unread {
    ghost use Rattle.std.specs.Prelude.{Some};
    ghost use Rattle.files.specs.Reasons.{words_of};

    ghost output = { λ reason. Some (words_of reason) };

    fn fmt<W: fmt::Write>(&self, f: &mut fmt::Formatter<W>) -> fmt::Result {
        f.write_str(str::from_utf8(self.words()).unwrap())
    }
}

impl Error for Unread {}
