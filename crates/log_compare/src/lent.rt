// Two lent logs, compared entry by entry.
ghost use Rattle.std.specs.Prelude.{◌≡◌, drop};
ghost use Rattle.logs.specs.Steps.{IsFront};
ghost use Rattle.log_compare.specs.Entries.{broken_of};
ghost use Rattle.log_compare.specs.Breaks.{fault_of, break_of};
ghost use Rattle.log_compare.specs.Places.{first_place, moved_to, found, next_of};

use crate::{Broken, Entry, Found, Place, Scanning, Side};
use logs::Records;

impl Broken {
    // The first of two logs that ends inside a record, and where; none if both are whole.
    pub fn of(first: &[u8], second: &[u8]) -> Option<Broken>
        ensures { fault_of result ≡ broken_of first.now second.now }
    {
        if let Some(place) = break_in(first) {
            return Some(Broken {
                log: Side::First,
                place,
            });
        }
        let place = break_in(second)?;
        Some(Broken {
            log: Side::Second,
            place,
        })
    }
}

// Where a log ends inside a record, if it does.
fn break_in(log: &[u8]) -> Option<u64>
    ensures { result ≡ break_of log.now }
{
    let read = Scanning::start().scan(log);
    if read.start == read.place {
        return None;
    }
    Some(read.start)
}

impl Place {
    // Before the first record.
    pub fn start() -> Place
        ensures { result ≡ first_place }
    {
        Place {
            number: 1,
            first: 0,
            second: 0,
        }
    }

    // The next entry from here on. Of a broken log the whole records in front are compared.
    pub fn next(self, first: &[u8], second: &[u8]) -> Found
        ensures { result ≡ next_of self first.now second.now }
    {
        let mut at = self;
        // Stays a loop: either log may end first, and the answer has the place in each.
        loop {
            match (record_at(first, at.first), record_at(second, at.second)) {
                (Some(a), Some(b)) => {
                    let next = at.moved_to(at.first + a.len(), at.second + b.len());
                    if !keys::same_key(&a[4..], &b[4..]) {
                        let entry = Entry::Both(
                            at.number,
                            (a.len() - 6) as u64,
                            (b.len() - 6) as u64,
                        );
                        return next.behind(entry);
                    }
                    at = next;
                }
                (Some(a), None) => {
                    let entry = Entry::First(at.number, (a.len() - 6) as u64);
                    return at.moved_to(at.first + a.len(), at.second).behind(entry);
                }
                (None, Some(b)) => {
                    let entry = Entry::Second(at.number, (b.len() - 6) as u64);
                    return at.moved_to(at.first, at.second + b.len()).behind(entry);
                }
                (None, None) => {
                    return Found {
                        said: None,
                        next: at,
                    };
                }
            }
        }
    }

    // The next record, at these places.
    fn moved_to(self, one: usize, two: usize) -> Place
        ensures { result ≡ moved_to self one two }
    {
        Place {
            number: self.number.wrapping_add(1),
            first: one,
            second: two,
        }
    }

    // The entry of the record before this place.
    fn behind(self, entry: Entry) -> Found
        ensures { result ≡ found entry self }
    {
        Found {
            said: Some(entry),
            next: self,
        }
    }
}

// The bytes of the record that starts at a place, if it is all there.
fn record_at(log: &[u8], at: usize) -> Option<&[u8]>
    ensures { IsFront 4 (drop at log.now) result }
{
    Records::<4>::of(keys::part(log, at, log.len())).next()
}
