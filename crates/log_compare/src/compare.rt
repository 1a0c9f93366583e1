// Two logs that come in pieces, compared.
ghost use Rattle.std.specs.Prelude.{◌≡◌, ◌+◌, ◌%◌, ◌^◌, cond, ◌==◌, Some, None};
ghost use Rattle.log_compare.specs.Steps.{fresh, standing, stepped, took, heads_of, bodies_go_on, bodies_of, is_end, step_of};

use crate::{Comparing, Entry, Partial, Piece, Step, heads};

impl Comparing {
    // Before the first record.
    pub fn start() -> Comparing
        ensures { result ≡ fresh }
    {
        Comparing {
            number: 0,
            length: 0,
            first: Partial::none(),
            second: Partial::none(),
            alike: 0,
        }
    }

    // Whether no record is under way in either log. With both logs at their ends, both were whole.
    pub fn is_end(self) -> bool
        ensures { result ≡ is_end (standing self) }
    {
        self.first.is_none() && self.second.is_none()
    }

    // One step with the pieces a and b at hand of the two logs.
    pub fn step(self, a: Piece, b: Piece) -> Step
        ensures { stepped result ≡ step_of (standing self) a.entry.bytes.now a.entry.is_last b.entry.bytes.now b.entry.is_last }
    {
        if self.first.left == 0 && self.second.left == 0 {
            self.heads(a, b)
        } else {
            self.bodies(a.bytes, b.bytes)
        }
    }

    // No body is under way: a record begins in both logs, or in one where the other has no more, or the heads are not at hand yet.
    fn heads(self, a: Piece, b: Piece) -> Step
        ensures { stepped result ≡ heads_of (standing self) a.entry.bytes.now a.entry.is_last b.entry.bytes.now b.entry.is_last }
    {
        let x = self.first.wanted(a.bytes);
        let y = self.second.wanted(b.bytes);
        match (self.first.head_at(a.bytes), self.second.head_at(b.bytes)) {
            (Some(one), Some(two)) => {
                let next = self.begins(one.length);
                let entry = Entry::Both(next.number, one.length, two.length);
                next.compared(one == two, entry, x, y)
            }
            (Some(one), None) if self.second.is_over(b) => {
                let next = self.begins(one.length);
                next.compared(false, Entry::First(next.number, one.length), x, &[])
            }
            (None, Some(two)) if self.first.is_over(a) => {
                let next = self.begins(two.length);
                next.compared(false, Entry::Second(next.number, two.length), &[], y)
            }
            _ => self.taking(
                self.first.waiting(a.bytes),
                self.second.waiting(b.bytes),
                None,
            ),
        }
    }

    // The next record, with a body of this length.
    fn begins(self, length: u64) -> Comparing
        ensures { result ≡ record self { number = (self.number + 1) % 2 ^ 64; length = length } }
    {
        Comparing {
            number: self.number.wrapping_add(1),
            length,
            ..self
        }
    }

    // A body is under way.
    fn bodies(self, a: &[u8], b: &[u8]) -> Step
        ensures { stepped result ≡ bodies_of (standing self) a.now b.now }
    {
        if self.alike == 1 && self.first.left == self.second.left {
            return self.bodies_go_on(a, b);
        }
        let next = Comparing { alike: 0, ..self };
        next.taking(self.first.body(a), self.second.body(b), None)
    }

    // Both bodies go on, alike so far.
    fn bodies_go_on(self, a: &[u8], b: &[u8]) -> Step
        ensures { stepped result ≡ bodies_go_on (standing self) a.now b.now }
    {
        let x = heads::front(self.first.body(a), b.len() as u64);
        let y = heads::front(b, x.len() as u64);
        let entry = Entry::Both(self.number, self.length, self.length);
        self.compared(keys::same_key(x, y), entry, x, y)
    }

    // These bytes are taken of each log. The record is still alike in both, or it is the entry's. It is inlined, as `taking` is, since a call
    // would copy the whole state.
    #[inline(always)]
    fn compared(self, is_alike: bool, entry: Entry, x: &[u8], y: &[u8]) -> Step
        ensures { stepped result ≡ took (standing self) x.now y.now self.number self.length is_alike (cond is_alike None (Some entry)) }
    {
        if is_alike {
            return Comparing { alike: 1, ..self }.taking(x, y, None);
        }
        Comparing { alike: 0, ..self }.taking(x, y, Some(entry))
    }

    // These bytes are taken of each log.
    #[inline(always)]
    fn taking(self, x: &[u8], y: &[u8], said: Option<Entry>) -> Step
        ensures { stepped result ≡ took (standing self) x.now y.now self.number self.length (self.alike == 1) said }
    {
        let state = Comparing {
            first: self.first.taken(x),
            second: self.second.taken(y),
            ..self
        };
        Step {
            state,
            first: x.len(),
            second: y.len(),
            said,
        }
    }
}
