// A channel's state in bytes: whether bytes are a state's, the state of bytes, and the bytes of a state.
#![tactic(auto)]

ghost use Rattle.std.specs.Prelude.{◌≡◌, refl, IfSome};
ghost use Rattle.std.proofs.Common.{rules};
ghost use Rattle.fields.specs.Fields.{number, flag, read};
ghost use Rattle.fields.proofs.Local.{number_local, choice_local, both_local, many_local, standing_local};
ghost use Rattle.requests.specs.Phases.{code};
ghost use Rattle.layout.specs.State.{phase_of, phase_count, slot, parts_of, of_parts, channel, encode, decode, is_state, state_from, state_into};

use channel::Channel;
use fields::{Field, Flag};
use requests::{Phase, Slot};

// How many bytes a slot takes.
const SLOT: usize = 6;

// Where each part of a state stands in the state's bytes, and how many there are.
const DEAD: usize = 0;

const PENDING: usize = DEAD + 1;

const SLOTS: usize = PENDING + 3;

const STREAMS: usize = SLOTS + 8 * SLOT;

const ACTIVE: usize = STREAMS + 128;

pub const STATE: usize = ACTIVE + 1;

// The phase of a code, a free slot's where it is none.
#[tactic(auto, using(crate::proofs::Places::phase_past))]
fn phase_of(code: u8) -> Phase
    ensures { result ≡ phase_of code }
{
    match Phase::try_from(code) {
        Ok(phase) => phase,
        Err(_) => Phase::Free,
    }
}

// A slot: its id, its phase, its data bit and its length.
struct SlotField;

impl Field<SLOT> for SlotField {
    type Value = Slot;

    ghost field = { slot };

    fn get(b: &[u8; SLOT]) -> Slot {
        Slot {
            id: u16::from_le_bytes([b[0], b[1]]),
            phase: phase_of(b[2]),
            databit: b[3] == 1,
            length: u16::from_le_bytes([b[4], b[5]]) as usize,
        }
    }

    #[tactic(auto, using(crate::proofs::Places::code_small))]
    fn is_good(b: &[u8; SLOT]) -> bool {
        Phase::try_from(b[2]).is_ok() & (b[3] < 2)
    }

    fn put(x: Slot) -> [u8; SLOT] {
        let [id0, id1] = x.id.to_le_bytes();
        let [length0, length1, ..] = x.length.to_le_bytes();
        [
            id0,
            id1,
            u8::from(x.phase),
            x.databit as u8,
            length0,
            length1,
        ]
    }

    ghost width = { refl };

    ghost some = { Prim.search rules };

    ghost fits = { Prim.search rules };

    ghost local = { Prim.search (number_local, choice_local, both_local, standing_local) depth 20 };
}

// The three bytes of a pending count, the lowest first.
#[tactic(auto, using(fields::proofs::Places::three))]
fn pending_bytes(n: usize) -> [u8; 3]
    ensures { result ≡ (number 3).put n }
{
    let [low, middle, high, ..] = n.to_le_bytes();
    [low, middle, high]
}

// A state: its dead number, its pending count, its slots, its streams and its count of active requests.
struct ChannelField;

impl Field<STATE> for ChannelField {
    type Value = Channel;

    ghost field = { channel };

    fn get(b: &[u8; STATE]) -> Channel {
        Channel {
            dead: b[DEAD],
            pending: u32::from_le_bytes([b[PENDING], b[PENDING + 1], b[PENDING + 2], 0]) as usize,
            slots: fields::get_all::<SlotField, SLOT, 8>(Slot::free(), &b[SLOTS..STREAMS]),
            streams: fields::get_all::<Flag, 1, 128>(false, &b[STREAMS..ACTIVE]),
            active: b[ACTIVE],
        }
    }

    #[tactic(auto, using(crate::proofs::Places::state_judged))]
    fn is_good(b: &[u8; STATE]) -> bool {
        fields::are_good::<SlotField, SLOT>(&b[SLOTS..STREAMS])
            & fields::are_good::<Flag, 1>(&b[STREAMS..ACTIVE])
    }

    fn put(s: Channel) -> [u8; STATE] {
        let mut b = [0u8; STATE];
        b[DEAD] = s.dead;
        buffer::put(&mut b, PENDING, &pending_bytes(s.pending));
        let slots = fields::put_all::<SlotField, SLOT, 8>(&s.slots);
        buffer::put(&mut b, SLOTS, slots.as_flattened());
        let streams = fields::put_all::<Flag, 1, 128>(&s.streams);
        buffer::put(&mut b, STREAMS, streams.as_flattened());
        b[ACTIVE] = s.active;
        b
    }

    ghost width = { refl };

    ghost some = { Prim.search rules };

    ghost fits = { Prim.search rules };

    ghost local = { Prim.search (number_local, choice_local, both_local, many_local, standing_local) depth 20 };
}

// Whether bytes are a state's.
#[tactic(auto, unfolding(crate::specs::State::is_state))]
pub fn is_state(b: &[u8]) -> bool
    ensures { result ≡ is_state b.now }
{
    fields::is_value::<ChannelField, STATE>(b)
}

// The state of its bytes, and a fresh one where there are more or fewer of them.
#[tactic(auto, unfolding(crate::specs::State::state_from))]
pub fn state_of(b: &[u8]) -> Channel
    ensures { result ≡ state_from b.now }
{
    fields::value_from::<ChannelField, STATE>(Channel::fresh(), b)
}

// The state of its bytes, if they are a state's: `bytes` says that it has no others.
// Stays two calls, one that judges and one that reads: of `fields::read` the compiler makes steps for each part, which take twice as long.
pub fn read(b: &[u8]) -> Option<Channel>
    ensures value { read result ≡ decode b.now }
    ensures bytes { IfSome result (λ s. b.now ≡ encode s) }
{
    if !is_state(b) {
        return None;
    }
    Some(state_of(b))
}

// Puts a state into its bytes; where there are more or fewer of them, they stay as they are.
#[tactic(auto, unfolding(crate::specs::State::state_into))]
pub fn put_state(b: &mut [u8], s: Channel)
    ensures { b.new ≡ state_into b.old s }
{
    fields::value_into::<ChannelField, STATE>(b, s);
}
