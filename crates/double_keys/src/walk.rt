// The entries of a map that are to come, as an iterator.
ghost use Rattle.std.specs.Prelude.{◌≡◌};
ghost use Rattle.std.specs.Iterator.{at_most};
ghost use Rattle.double_keys.specs.Walk.{Gives};

use entries::Entry;

// At most `left` entries of s from a position on, their values of at most `levels` levels: up to the first that is none, which is not read
// again.
#[derive(Clone, Copy)]
pub(crate) struct Entries<'a> {
    pub(crate) s: &'a [u8],
    pub(crate) levels: usize,
    pub(crate) left: u64,
    pub(crate) at: usize,
}

impl<'a> Iterator for Entries<'a> {
    type Item = Entry;

    ghost next_gives = { λ before first after. Gives before.s.now before.levels before.left before.at first after.left after.at × (after.s.now ≡ before.s.now) × (after.levels ≡ before.levels) };

    ghost remaining = { λ entries. at_most entries.left };

    fn next(&mut self) -> Option<Entry> {
        let left = self.left.checked_sub(1)?;
        self.left = 0;
        let e = entries::read_entry(self.s, self.levels, self.at)?;
        self.left = left;
        self.at = e.next();
        Some(e)
    }
}

impl<'a> Entries<'a> {
    ghost use Rattle.double_keys.specs.Entries.{FromHere};

    // The same entries in what s has from their position on.
    pub(crate) fn from_here(self) -> Entries<'a>
        ensures { FromHere self.entry result }
    {
        Entries {
            s: keys::part(self.s, self.at, self.s.len()),
            at: 0,
            ..self
        }
    }
}
