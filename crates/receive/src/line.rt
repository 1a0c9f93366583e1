// The lines of records. Each function puts a text behind what a line has.
use crate::diagnostic;
use crate::diagnostic::Form;
use cbor::Item;
use entries::Entry;
use records::Head;
use text::Line;

// Room for the longest line of a command, of fewer than 15,000 bytes: a command of 2,048 bytes becomes at most seven times as long. Data
// may be longer.
pub(crate) type Text = Line<16384>;

// The line of a command that is whole.
pub(crate) fn put_command(head: Head, command: &[u8], line: &mut Text) {
    put_head(head, b"command ", b" data ", line);
    line.put(b" loose ");
    line.put_decimal(head.loose as u64);
    put_call(command, line);
    put_redirect(command, line);
    line.put(b"\n");
}

// The name and the arguments. The channel's commands pass the check: nothing is put of other bytes.
fn put_call(command: &[u8], line: &mut Text) {
    if let Ok(call) = command::check(command) {
        line.put(b" name ");
        diagnostic::put_bytes(keys::part(command, call.start, call.stop), line);
        line.put(b" args ");
        diagnostic::put_map(command, call.count, call.first, line);
    }
}

// The value of `redirect`, if the command has one.
fn put_redirect(command: &[u8], line: &mut Text) {
    if let Some((count, first)) = redirect(command) {
        line.put(b" redirect ");
        diagnostic::put_map(command, count, first, line);
    }
}

// How many pairs the value of `redirect` has, and where the first stands.
fn redirect(command: &[u8]) -> Option<(u64, usize)> {
    let (n, from) = map_at(command, 0)?;
    match entries::find_key(command, 7, b"redirect", n, from)? {
        Entry::Keyed { stop, .. } => map_at(command, stop),
        Entry::Other(_) => None,
    }
}

// How many pairs the map at a position has, and where the first stands.
fn map_at(s: &[u8], at: usize) -> Option<(u64, usize)> {
    match cbor::read_item(s, at)? {
        Item::Map(count, first) => Some((count, first)),
        _ => None,
    }
}

// The line of a request's data up to its first byte.
pub(crate) fn put_data_start(head: Head, length: usize, form: Form, line: &mut Text) {
    put_head(head, b"data ", b" last ", line);
    line.put(b" ");
    line.put_decimal(length as u64);
    line.put(b" bytes ");
    line.put(form.start());
}

// A record's request and bit, each behind its words.
fn put_head(head: Head, first: &[u8], second: &[u8], line: &mut Text) {
    line.put(first);
    line.put_decimal(head.request as u64);
    line.put(second);
    line.put_decimal(head.bit as u64);
}
