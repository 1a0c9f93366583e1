// Writes to standard output. A record's line goes there by one call, or, where it is long data, by some; the other lines, of which there
// are few, go in parts.
use crate::diagnostic::Form;
use crate::line::Text;
use crate::{line, words};
use records::Head;
use std::io;
use std::io::Print;

// How many bytes of data are put into a text at a time: of a whole text less than half, since a byte may become two hex digits, and the
// line's start and end stand there too.
const PIECE: usize = 8000;

// Writes the line of a record, where there is one.
pub(crate) fn say_record(record: &[u8], output: &impl Print) -> io::Result<()> {
    if record.is_empty() {
        return Ok(());
    }
    let head = records::read_head(record);
    let content = records::content(record);
    let mut line = Text::new();
    if head.kind == 1 {
        line::put_command(head, content, &mut line);
        return output.write_all(line.as_slice());
    }
    say_data(head, content, &mut line, output)
}

// Writes the line of a request's data, which may be longer than a text. Whether the data stands as text or in hex is known of all of it
// before the first byte is written.
fn say_data(head: Head, data: &[u8], line: &mut Text, output: &impl Print) -> io::Result<()> {
    let form = Form::of(data);
    line::put_data_start(head, data.len(), form, line);
    for (i, piece) in data.chunks(PIECE).enumerate() {
        if 0 < i {
            output.write_all(line.as_slice())?;
            line.clear();
        }
        form.put_content(piece, line);
    }
    line.put(b"'\n");
    output.write_all(line.as_slice())
}

// Writes what was refused, by its number and the count of bytes taken, the last of which was judged.
pub(crate) fn say_refusal(number: u8, place: u64, output: &impl Print) {
    say_counted(b"refused ", number as u64, output);
    say_counted(b" at byte ", place.wrapping_sub(1), output);
    say(b": ", output);
    say(words::refusal(number), output);
    say(b"\n", output);
}

// Writes how much there is of a frame that the input ends in.
pub(crate) fn say_end(pending: usize, output: &impl Print) {
    if pending == 0 {
        return;
    }
    say_counted(
        b"the input ends inside a frame, after ",
        pending as u64,
        output,
    );
    say(b" of its bytes\n", output);
}

// Writes the name of an input, before its lines.
pub(crate) fn say_title(name: &[u8], output: &impl Print) {
    say(name, output);
    say(b":\n", output);
}

// Writes what the program does.
pub(crate) fn say_help(output: &impl Print) {
    say(
        b"receive [FILE]..\n\
          \n\
          Reads captures of the line, the bytes that clients sent, and writes a line for each record that the channel makes of them.\n\
          Each FILE is a channel of its own, and of several the name stands before the lines; - is standard input, and so is no FILE.\n\
          Lines look like these:\n\
          \n\
          command 3 data 0 loose 0 name 'set' args {'magnet': 4, 'on': true}\n\
          data 1 last 0 4 bytes 'slow'\n\
          refused 24 at byte 71: whole command isn't one CBOR item of the subset\n",
        output,
    );
}

// Writes words, and a number behind them.
fn say_counted(words: &[u8], n: u64, output: &impl Print) {
    say(words, output);
    files::write_decimal(output, n);
}

// Writes a text.
fn say(text: &[u8], output: &impl Print) {
    files::write(output, text);
}
