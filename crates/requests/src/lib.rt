// Requests: their phases, and the slots that hold them.
#![tactic(auto)]

ghost use Rattle.std.specs.Prelude.{◌≡◌, ◌&&◌, eqb, [], get_or, set};
ghost use Rattle.frame.specs.Frame.{framed, is_even};
ghost use Rattle.requests.specs.Phases.{code, Decodes, takes_data, can_finish, free_slot};
ghost use Rattle.requests.specs.Slots.{in_phase, place_at, first_slot, enter, is_id, slot_fits, id_in, apart, slots_fit, used_bit, used_count, collected, data_slot, finish_slot};

use frame::Header;

// A request is collecting (its command isn't whole), waiting for data, running, or draining (finished before its data has all come).
// A free slot holds none.
#[derive(Clone, Copy, PartialEq, Eq)]
pub enum Phase {
    Free,
    Collecting,
    Waiting,
    Running,
    Draining,
}

// A slot: the request's id, its phase, its data bit, and how many bytes of its command the slot's part of the work area holds.
// Stays a length: the part lies in the lent work area, of which a state holds nothing.
#[derive(Clone, Copy)]
pub struct Slot {
    pub id: u16,
    pub phase: Phase,
    pub databit: bool,
    pub length: usize,
}

// A number that no phase has.
#[derive(Clone, Copy, PartialEq, Eq)]
pub struct NoPhase(pub u8);

// The number of a phase: 0 free, 1 collecting, 2 waiting, 3 running, 4 draining.
impl From<Phase> for u8 {
    ghost from_gives = { λ p n. n ≡ code p };

    #[tactic(auto, unfolding(crate::specs::Phases::code))]
    fn from(p: Phase) -> u8 {
        match p {
            Phase::Free => 0,
            Phase::Collecting => 1,
            Phase::Waiting => 2,
            Phase::Running => 3,
            Phase::Draining => 4,
        }
    }
}

// The phase of a number.
impl TryFrom<u8> for Phase {
    type Error = NoPhase;

    ghost try_from_gives = { Decodes };

    #[tactic(auto, unfolding(crate::specs::Phases::code))]
    fn try_from(n: u8) -> Result<Phase, NoPhase> {
        match n {
            0 => Ok(Phase::Free),
            1 => Ok(Phase::Collecting),
            2 => Ok(Phase::Waiting),
            3 => Ok(Phase::Running),
            4 => Ok(Phase::Draining),
            _ => Err(NoPhase(n)),
        }
    }
}

// Whether data is taken for a request in this phase.
#[tactic(auto, unfolding(crate::specs::Phases::is_phase, crate::specs::Phases::code))]
pub fn takes_data(p: Phase) -> bool
    ensures { result ≡ takes_data p }
{
    matches!(p, Phase::Waiting | Phase::Draining)
}

#[tactic(auto, unfolding(frame::specs::Frame::is_even))]
fn is_even(n: u16) -> bool
    ensures { result ≡ is_even n }
{
    n % 2 == 0
}

impl Slot {
    // A slot that holds no request.
    pub fn free() -> Slot
        ensures { result ≡ free_slot }
    {
        Slot {
            id: 0,
            phase: Phase::Free,
            databit: false,
            length: 0,
        }
    }

    // The slot with its request in another phase.
    #[tactic(auto, unfolding(crate::specs::Slots::enter))]
    fn enter(self, phase: Phase) -> Slot
        ensures { result ≡ enter phase self }
    {
        Slot { phase, ..self }
    }

    // Whether its request is in this phase, Free where it holds none.
    fn in_phase(self, p: Phase) -> bool
        ensures { result ≡ in_phase p self }
    {
        self.phase == p
    }

    // Whether a used slot holds this id.
    #[tactic(auto, unfolding(crate::specs::Slots::is_id))]
    fn is_id(self, id: u16) -> bool
        ensures { result ≡ is_id id self }
    {
        !self.in_phase(Phase::Free) && self.id == id
    }

    // What rule 3 asks of a slot by itself.
    #[tactic(auto, unfolding(crate::specs::Slots::slot_fits))]
    fn fits(self) -> bool
        ensures { result ≡ slot_fits self }
    {
        match self.phase {
            Phase::Free => (self.id == 0) & !self.databit & (self.length == 0),
            Phase::Collecting => !is_even(self.id) & (self.length <= frame::MAX_COMMAND),
            Phase::Waiting => !is_even(self.id) & self.databit & (self.length == 0),
            Phase::Running => !is_even(self.id) & (self.length == 0),
            Phase::Draining => !is_even(self.id) & self.databit & (self.length == 0),
        }
    }

    // Whether none of these slots is used and holds the slot's id, or the slot is free.
    #[tactic(auto, unfolding(crate::specs::Slots::apart))]
    fn is_apart(self, later: &[Slot]) -> bool
        ensures { result ≡ apart self later.now }
    {
        self.in_phase(Phase::Free) || !id_in(later, self.id)
    }

    // 1 for a used slot, 0 for a free one.
    #[tactic(auto, unfolding(crate::specs::Slots::used_bit))]
    pub fn used_bit(self) -> u8
        ensures { result ≡ used_bit self }
    {
        frame::bit(!self.in_phase(Phase::Free))
    }
}

// The index of the first used slot of an id.
pub fn place_of(slots: &[Slot; 8], id: u16) -> Option<usize>
    ensures { result ≡ place_at (first_slot (is_id id) slots.now) }
{
    slots.iter().position(|s| s.is_id(id))
}

// The index of the first free slot.
pub fn lowest_free(slots: &[Slot; 8]) -> Option<usize>
    ensures { result ≡ place_at (first_slot (in_phase Phase.Free) slots.now) }
{
    slots.iter().position(|s| s.in_phase(Phase::Free))
}

// The slot at an index, a free one where there is none.
pub fn slot_at(slots: &[Slot; 8], i: usize) -> Slot
    ensures { result ≡ get_or slots.now i free_slot }
{
    slots.get(i).copied().unwrap_or(Slot::free())
}

// The slots with another one at an index; as they are where there is none.
pub fn with_slot(slots: [Slot; 8], at: usize, s: Slot) -> [Slot; 8]
    ensures { result ≡ set slots at s }
{
    let mut next = slots;
    if at < 8 {
        next[at] = s;
    }
    next
}

// Whether one of these slots is used and holds this id.
fn id_in(slots: &[Slot], id: u16) -> bool
    ensures { result ≡ id_in id slots.now }
{
    slots.iter().any(|s| s.is_id(id))
}

// What rule 3 asks of the slots and of their count: each fits by itself, no two used ones hold one id, and so many are used.
pub fn slots_fit(slots: &[Slot; 8], count: u8) -> bool
    ensures { result ≡ (slots_fit slots.now && eqb count (used_count slots.now)) }
{
    let mut used: u8 = 0;
    let mut rest = &slots[..];
    while let Some((s, later)) = rest.split_first() {
        if !s.fits() || !s.is_apart(later) {
            return false;
        }
        used += s.used_bit();
        rest = later;
    }
    count == used
}

// The slot of a request after a command frame, with the command's length.
pub fn command_slot(h: Header, size: usize) -> Slot
    ensures { result ≡ collected (framed h []) size }
{
    let databit = h.data_follows();
    let (phase, length) = if h.is_more() {
        (Phase::Collecting, size)
    } else if databit {
        (Phase::Waiting, 0)
    } else {
        (Phase::Running, 0)
    };
    Slot {
        id: h.request,
        phase,
        databit,
        length,
    }
}

// A request's slot after a data frame.
#[tactic(auto, unfolding(crate::specs::Slots::data_slot))]
pub fn data_slot(x: Slot, h: Header) -> Slot
    ensures { result ≡ data_slot x (framed h []) }
{
    if h.is_last() {
        if x.in_phase(Phase::Draining) {
            return Slot::free();
        }
        return x.enter(Phase::Running);
    }
    x
}

// Whether finish accepts a request in this phase.
#[tactic(auto, unfolding(crate::specs::Phases::is_phase, crate::specs::Phases::code))]
pub fn can_finish(p: Phase) -> bool
    ensures { result ≡ can_finish p }
{
    matches!(p, Phase::Waiting | Phase::Running)
}

// A request's slot after a finish that is accepted.
#[tactic(auto, unfolding(crate::specs::Slots::finish_slot))]
pub fn finish_slot(x: Slot) -> Slot
    ensures { result ≡ finish_slot x }
{
    if x.in_phase(Phase::Waiting) {
        return x.enter(Phase::Draining);
    }
    Slot::free()
}
