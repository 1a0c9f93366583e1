// For a screen: how many requests are active, and a lent row that is filled with id and phase of the slots, in their order. The row is a
// slice of entries; for callers that have none, in_bytes.rt fills one of bytes.
#![tactic(auto)]

pub mod in_bytes;

ghost use Rattle.std.specs.Prelude.{◌≡◌, get_or};
ghost use Rattle.requests.specs.Phases.{code, free_slot};
ghost use Rattle.status.specs.Row.{active_of, entry_of, entries, refusal_of, counted, refused_by, row_number, shown, shown_in};

use channel::Channel;
use requests::{Phase, Slot};

// What the screen shows of a slot: the request's id and its phase.
#[derive(Clone, Copy)]
pub struct Entry {
    pub id: u16,
    pub phase: Phase,
}

// Why a call is refused: the state fails finish's shape check, or the row is shorter than eight entries.
#[derive(Clone, Copy, PartialEq, Eq)]
pub enum Refusal {
    NotInShape,
    ShortRow,
}

// The number of a refusal.
impl From<Refusal> for u8 {
    ghost from_gives = { λ r n. n ≡ refusal_of r };

    fn from(refusal: Refusal) -> u8 {
        match refusal {
            Refusal::NotInShape => 3,
            Refusal::ShortRow => 9,
        }
    }
}

// How many requests are active, of a dead channel too; or 3 for a state that fails finish's shape check.
#[tactic(auto, unfolding(crate::specs::Row::active_of))]
pub fn active(c: Channel) -> Result<u8, Refusal>
    ensures { counted result ≡ active_of c }
{
    if !c.is_plain() {
        return Err(Refusal::NotInShape);
    }
    Ok(c.active)
}

// The id of the slot at an index, 0 where the slot is free or there is none.
// Stays 0 where there is none, as `phase_at` does: it could not fail.
pub fn id_at(c: Channel, i: usize) -> u16
    ensures { result ≡ (get_or c.slots i free_slot).id }
{
    requests::slot_at(&c.slots, i).id
}

// The number of the phase of the slot at an index, that of a free one where there is none.
pub fn phase_at(c: Channel, i: usize) -> u8
    ensures { result ≡ code (get_or c.slots i free_slot).phase }
{
    u8::from(requests::slot_at(&c.slots, i).phase)
}

// Whether a call for a row of so many places is refused.
#[tactic(auto, unfolding(crate::specs::Row::row_number))]
fn check(c: Channel, places: usize) -> Result<(), Refusal>
    ensures { refused_by result ≡ row_number c places }
{
    if !c.is_plain() {
        return Err(Refusal::NotInShape);
    }
    if places < 8 {
        return Err(Refusal::ShortRow);
    }
    Ok(())
}

// The entry of a slot.
fn entry_of(x: Slot) -> Entry
    ensures { result ≡ entry_of x }
{
    Entry {
        id: x.id,
        phase: x.phase,
    }
}

// The entries of the slots.
fn entries(c: Channel) -> [Entry; 8]
    ensures { result ≡ entries c }
{
    c.slots.map(|x| entry_of(x))
}

// Fills a lent row, of a dead channel too: 3 for a state that fails finish's shape check, then 9 for a row shorter than eight, both with no
// change; else the first eight entries are the slots', and those past the eighth stay.
pub fn show(c: Channel, row: &mut [Entry]) -> Result<(), Refusal>
    ensures { shown (refused_by result) row.new ≡ shown_in c row.old }
{
    if let Err(refusal) = check(c, row.len()) {
        return Err(refusal);
    }
    row[..8].copy_from_slice(&entries(c));
    Ok(())
}
