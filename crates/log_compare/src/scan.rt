// A log that comes in pieces, read through for a break.
ghost use Rattle.std.specs.Prelude.{◌≡◌};
ghost use Rattle.log_compare.specs.Partial.{under_way};
ghost use Rattle.log_compare.specs.Scan.{unread, scan_view, settled, reach_of, scan_of};

use crate::{Partial, Scanning};

impl Scanning {
    // Before the first byte.
    pub fn start() -> Scanning
        ensures { result ≡ unread }
    {
        Scanning {
            under: Partial::none(),
            start: 0,
            place: 0,
        }
    }

    // Takes a piece, whole.
    pub fn scan(self, piece: &[u8]) -> Scanning
        ensures { scan_view result ≡ scan_of (scan_view self) piece.now }
    {
        let mut s = self;
        let mut rest = piece;
        // Stays a loop: how many bytes a turn takes follows from what is then under way.
        while !rest.is_empty() {
            let n = s.reach().min(rest.len() as u64) as usize;
            let (bytes, behind) = rest.split_at(n);
            s = s.settled(bytes);
            rest = behind;
        }
        s
    }

    // How many bytes end the head or the body under way.
    fn reach(self) -> u64
        ensures { result ≡ reach_of (under_way self.under) }
    {
        if 0 < self.under.left {
            self.under.left
        } else {
            self.under.missing() as u64
        }
    }

    // With these bytes taken: behind a record that they end, the next one starts.
    fn settled(self, bytes: &[u8]) -> Scanning
        ensures { scan_view result ≡ settled (scan_view self) bytes.now }
    {
        let under = self.under.taken(bytes);
        let place = self.place.wrapping_add(bytes.len() as u64);
        let start = if under.is_none() { place } else { self.start };
        Scanning {
            under,
            start,
            place,
        }
    }
}
