// Writes what is wrong to standard error, in a line, and the help to standard output.
use files::Unread;
use std::io::Print;

// Why a log is not converted to its end: it cannot be read; it ends inside a record, which starts at that place, counted from 0; the output
// does not take the new log.
#[derive(Clone, Copy, Debug, PartialEq, Eq)]
pub(crate) enum Fault {
    Unread(Unread),
    Broken(u64),
    Unwritten,
}

impl From<Unread> for Fault {
    fn from(error: Unread) -> Fault {
        Fault::Unread(error)
    }
}

// Writes why a log, by its name, is not converted to its end.
pub(crate) fn say_fault(errors: &impl Print, name: &[u8], fault: Fault) {
    match fault {
        Fault::Unread(error) => files::say_unread(errors, name, error),
        // Stays some writes, as the lines of files.
        Fault::Broken(place) => {
            files::write(errors, b"broken at byte ");
            files::write_decimal(errors, place);
            files::write(errors, b"\n");
        }
        Fault::Unwritten => {
            let _ = println!(errors; "the output cannot be written");
        }
    }
}

// Writes that there is more than one argument.
pub(crate) fn say_many(errors: &impl Print) {
    let _ = println!(errors; "convert takes one log; convert --help says what there is");
}

// Writes what the program does.
pub(crate) fn say_help(output: &impl Print) {
    files::write(
        output,
        b"convert [FILE]\n\
          \n\
          Converts a stored log: records with two-byte body lengths become records with four-byte ones, the kinds and bodies as they are.\n\
          The log is FILE, or standard input where that is - or no FILE is named; the new log goes to standard output.\n\
          Of a log that ends inside a record the whole records are written, and a line like this says on standard error where it is broken:\n\
          \n\
          broken at byte 71\n\
          \n\
          The exit status does not tell: it is 0 in any case.\n",
    );
}
