// The calls that compare two stored logs, for C and Rust. The header and the bindings have the structs.
// Stays so, that the fields of a struct are lent one by one, and an entry is numbers: the exported names have these arguments.
ghost use Rattle.std.specs.Prelude.{◌≡◌, replicate};
ghost use Rattle.log_compare.specs.Entries.{told_of, broken_of};
ghost use Rattle.log_compare.specs.Scan.{scan_of};
ghost use Rattle.log_compare.specs.Steps.{is_end};
ghost use Rattle.hgrpc.specs.Compared.{told, place, under, scanned, compared, next, next_call, step, step_call};

use log_compare::{Broken, Comparing, Entry, Partial, Piece, Place, Scanning};

// The first of two logs that ends inside a record, 1 or 2, and the place where that record starts; 0 and 0 if both are whole.
#[unsafe(no_mangle)]
pub extern "C" fn hgrpc_logs_broken(first: &[u8], second: &[u8], place: &mut u64) -> u32
    ensures { record { log = result; place = place.new } ≡ broken_of first.now second.now }
{
    match Broken::of(first, second) {
        Some(broken) => {
            *place = broken.place;
            u32::from(broken.log)
        }
        None => {
            *place = 0;
            0
        }
    }
}

// The next entry of two logs from a place on, which moves behind that record: which logs have the record, its number and the length of each
// body; or 0, and nothing is left.
#[unsafe(no_mangle)]
pub extern "C" fn hgrpc_next_entry(
    first: &[u8],
    second: &[u8],
    number: &mut u64,
    at_first: &mut usize,
    at_second: &mut usize,
    entry_number: &mut u64,
    entry_first: &mut u64,
    entry_second: &mut u64,
) -> u32
    ensures { next (told result entry_number.new entry_first.new entry_second.new)
        (place number.new at_first.new at_second.new)
        ≡ next_call (place number.old at_first.old at_second.old) first.now second.now }
{
    let at = Place {
        number: *number,
        first: *at_first,
        second: *at_second,
    };
    let found = at.next(first, second);
    let behind = found.next;
    *number = behind.number;
    *at_first = behind.first;
    *at_second = behind.second;
    put_entry(found.said, entry_number, entry_first, entry_second)
}

// Puts an entry's numbers to the places lent for them, and answers which logs have its record; zeros for none.
fn put_entry(said: Option<Entry>, number: &mut u64, first: &mut u64, second: &mut u64) -> u32
    ensures { told result number.new first.new second.new ≡ told_of said }
{
    let told = log_compare::tell(said);
    *number = told.number;
    *first = told.first;
    *second = told.second;
    told.logs
}

// Puts the record under way to the places lent for its fields.
fn put_under(partial: Partial, head: &mut [u8; 6], held: &mut usize, left: &mut u64)
    ensures { under head.new held.new left.new ≡ partial }
{
    let bytes = partial.head;
    *head = bytes;
    *held = partial.held;
    *left = partial.left;
}

// Takes a piece of a log that is read through for a break.
#[unsafe(no_mangle)]
pub extern "C" fn hgrpc_scan_piece(
    head: &mut [u8; 6],
    held: &mut usize,
    left: &mut u64,
    start: &mut u64,
    place: &mut u64,
    piece: &[u8],
)
    ensures { scanned (under head.new held.new left.new) start.new place.new
        ≡ scan_of (scanned (under head.old held.old left.old) start.old place.old) piece.now }
{
    let before = Scanning {
        under: Partial {
            head: *head,
            held: *held,
            left: *left,
        },
        start: *start,
        place: *place,
    };
    let after = before.scan(piece);
    put_under(after.under, head, held, left);
    *start = after.start;
    *place = after.place;
}

// One step of the comparison of two logs with the pieces first and second at hand; first_last and second_last say that nothing follows them.
// Answers as hgrpc_next_entry, 0 where nothing is said yet, and the bytes taken of each piece.
#[unsafe(no_mangle)]
pub extern "C" fn hgrpc_compare_step(
    number: &mut u64,
    length: &mut u64,
    first_head: &mut [u8; 6],
    first_held: &mut usize,
    first_left: &mut u64,
    second_head: &mut [u8; 6],
    second_held: &mut usize,
    second_left: &mut u64,
    alike: &mut u64,
    first: &[u8],
    first_last: bool,
    second: &[u8],
    second_last: bool,
    first_taken: &mut usize,
    second_taken: &mut usize,
    entry_number: &mut u64,
    entry_first: &mut u64,
    entry_second: &mut u64,
) -> u32
    ensures { step (told result entry_number.new entry_first.new entry_second.new)
        (compared number.new length.new (under first_head.new first_held.new first_left.new)
        (under second_head.new second_held.new second_left.new) alike.new)
        first_taken.new second_taken.new
        ≡ step_call (compared number.old length.old (under first_head.old first_held.old first_left.old)
        (under second_head.old second_held.old second_left.old) alike.old)
        first.now first_last second.now second_last }
{
    let before = Comparing {
        number: *number,
        length: *length,
        first: Partial {
            head: *first_head,
            held: *first_held,
            left: *first_left,
        },
        second: Partial {
            head: *second_head,
            held: *second_held,
            left: *second_left,
        },
        alike: *alike,
    };
    let a = Piece {
        bytes: first,
        is_last: first_last,
    };
    let b = Piece {
        bytes: second,
        is_last: second_last,
    };
    let step = before.step(a, b);
    let after = step.state;
    *number = after.number;
    *length = after.length;
    *alike = after.alike;
    put_under(after.first, first_head, first_held, first_left);
    put_under(after.second, second_head, second_held, second_left);
    *first_taken = step.first;
    *second_taken = step.second;
    put_entry(step.said, entry_number, entry_first, entry_second)
}

// Whether no record is under way in either log, by the bytes held of each head and what is left of each body.
#[unsafe(no_mangle)]
pub extern "C" fn hgrpc_is_between(
    first_held: usize,
    first_left: u64,
    second_held: usize,
    second_left: u64,
) -> bool
    ensures { result ≡ is_end (compared 0 0 (under (replicate 6 0) first_held first_left) (under (replicate 6 0) second_held second_left) 0) }
{
    let state = Comparing {
        number: 0,
        length: 0,
        first: Partial {
            head: [0; 6],
            held: first_held,
            left: first_left,
        },
        second: Partial {
            head: [0; 6],
            held: second_held,
            left: second_left,
        },
        alike: 0,
    };
    state.is_end()
}
