// The row as bytes.
ghost use Rattle.std.specs.Prelude.{◌≡◌, refl};
ghost use Rattle.std.proofs.Common.{rules};
ghost use Rattle.fields.proofs.Local.{number_local, choice_local, both_local, standing_local};
ghost use Rattle.status.specs.Row.{entry, refused_by, shown, shown_in_bytes};

use crate::{Entry, Refusal};
use channel::Channel;
use fields::Field;
use requests::Phase;

// How many bytes an entry has: its id, the lower byte first, and its phase.
const ENTRY: usize = 3;

struct EntryField;

impl Field<ENTRY> for EntryField {
    type Value = Entry;

    ghost field = { entry };

    fn get(b: &[u8; ENTRY]) -> Entry {
        Entry {
            id: u16::from_le_bytes([b[0], b[1]]),
            phase: Phase::try_from(b[2]).unwrap_or(Phase::Free),
        }
    }

    fn is_good(b: &[u8; ENTRY]) -> bool {
        b[2] < 5
    }

    fn put(x: Entry) -> [u8; ENTRY] {
        let [low, high] = x.id.to_le_bytes();
        [low, high, u8::from(x.phase)]
    }

    ghost width = { refl };

    ghost some = { Prim.search rules };

    ghost fits = { Prim.search rules };

    ghost local = { Prim.search (number_local, choice_local, both_local, standing_local) depth 20 };
}

// Fills a lent row of bytes, three for an entry, as show fills one of entries.
pub fn show_bytes(c: Channel, row: &mut [u8]) -> Result<(), Refusal>
    ensures { shown (refused_by result) row.new ≡ shown_in_bytes c row.old }
{
    if let Err(refusal) = crate::check(c, row.len() / ENTRY) {
        return Err(refusal);
    }
    let entries = fields::put_all::<EntryField, ENTRY, 8>(&crate::entries(c));
    buffer::put(row, 0, entries.as_flattened());
    Ok(())
}
