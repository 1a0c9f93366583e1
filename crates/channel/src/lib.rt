// The receiving side of one channel: its state, by value; the owner's finish; and what a whole frame does. What feed does is in feed.rt.
#![tactic(auto)]

mod feed;

ghost use Rattle.std.specs.Prelude.{◌≡◌, ◌+◌, ◌≤◌, ◌<◌, length, take, drop, IfErr};
ghost use Rattle.buffer.specs.Bytes.{write};
ghost use Rattle.frame.specs.Limits.{max_command, slot_count, work_area, part_start};
ghost use Rattle.rules.specs.Rules.{check_of, command_byte};
ghost use Rattle.channel.specs.Receiver.{fresh_state, with_slot};
ghost use Rattle.rules.specs.Stages.{number_of};
ghost use Rattle.channel.specs.Channel.{dead_fits, plain_shape, refusal_of, refusal_in, finish_of, finished, fed_with};
ghost use Rattle.channel.specs.Steps.{met_of, CountRight, answer_with, refused_with, accepted_with, judged_into, HasFrame, Passed};

use frame::Header;
use requests::{Phase, Slot};
use rules::{Met, Rule};

// The dead number, 0 while live; how many bytes of the frame under way are in the work area; the slots; the streams, true for open:
// stream 2k + 1 at index k; and how many requests are active.
// Stays numbers and arrays: rule 3 is asked of any dead number, count and slots (`plain_shape` in specs/Channel.antt), and a state with others is
// refused with 3.
#[derive(Clone, Copy)]
pub struct Channel {
    pub dead: u8,
    pub pending: usize,
    pub slots: [Slot; 8],
    pub streams: [bool; 128],
    pub active: u8,
}

// What feed answers: its number, how many bytes of the input it took, how many bytes of the output it wrote, and the state after it.
// Stays a number: it is one of document 01's, handed to every caller as it is, and the dead one is a byte of the state.
#[derive(Clone, Copy)]
pub struct Fed {
    pub number: u8,
    pub taken: usize,
    pub written: usize,
    pub channel: Channel,
}

// Why a finish is refused: the state is not in shape, the channel is dead with its number, or the request neither waits nor runs.
#[derive(Clone, Copy, PartialEq, Eq)]
pub enum Refusal {
    NotInShape,
    Dead(u8),
    NotFinishable,
}

// The number of a refusal: 3, the dead number, or 4.
impl From<Refusal> for u8 {
    ghost from_gives = { λ r n. n ≡ refusal_of r };

    fn from(refusal: Refusal) -> u8 {
        match refusal {
            Refusal::NotInShape => 3,
            Refusal::Dead(number) => number,
            Refusal::NotFinishable => 4,
        }
    }
}

// Whether a dead number is one: 0, or 11 to 29.
// Stays a number: rule 3 speaks of every byte that may stand there (`dead_fits`).
#[tactic(auto, unfolding(crate::specs::Channel::dead_fits))]
fn dead_fits(n: u8) -> bool
    ensures { result ≡ dead_fits n }
{
    n == 0 || matches!(n, 11..=29)
}

impl Channel {
    // Live, nothing pending, all slots free, all streams closed, no request active.
    #[tactic(auto, unfolding(crate::specs::Receiver::fresh_state))]
    pub fn fresh() -> Channel
        ensures { result ≡ fresh_state }
    {
        Channel {
            dead: 0,
            pending: 0,
            slots: [Slot::free(); 8],
            streams: [false; 128],
            active: 0,
        }
    }

    // Whether the plain numbers of rule 3 are in order: finish's shape check.
    #[tactic(auto, unfolding(crate::specs::Channel::plain_shape))]
    pub fn is_plain(self) -> bool
        ensures { result ≡ plain_shape self }
    {
        self.pending < frame::FRAME_AREA
            && requests::slots_fit(&self.slots, self.active)
            && dead_fits(self.dead)
    }

    // The state with another slot at an index, and the count that follows; as it is where there is none.
    fn with_slot(self, i: usize, x: Slot) -> Channel
        requires { CountRight self }
        ensures { result ≡ with_slot self i x }
    {
        let slots = requests::with_slot(self.slots, i, x);
        let before = requests::slot_at(&self.slots, i);
        let after = requests::slot_at(&slots, i);
        Channel {
            slots,
            active: self.active + after.used_bit() - before.used_bit(),
            ..self
        }
    }

    // The owner's finish of a request: the state after it, in which the slot of a request that ran is free, and one that waited for data
    // drains. Or 3, the dead number or 4, and the state that was handed in stays the channel's.
    pub fn finish(self, id: u16) -> Result<Channel, Refusal>
        ensures answer { finished self result ≡ finish_of self id }
        ensures why { IfErr result (λ r. r ≡ refusal_in self) }
    {
        if !self.is_plain() {
            return Err(Refusal::NotInShape);
        }
        if self.dead != 0 {
            return Err(Refusal::Dead(self.dead));
        }
        let Some(i) = requests::place_of(&self.slots, id) else {
            return Err(Refusal::NotFinishable);
        };
        let x = requests::slot_at(&self.slots, i);
        if !requests::can_finish(x.phase) {
            return Err(Refusal::NotFinishable);
        }
        Ok(self.with_slot(i, requests::finish_slot(x)))
    }

    // The answer with this state.
    fn answer(self, number: u8, taken: usize, written: usize) -> Fed
        ensures { result ≡ answer_with self number taken written }
    {
        Fed {
            number,
            taken,
            written,
            channel: self,
        }
    }
}

// ---- a whole frame in the work area: the rules, and what it does if it is accepted or refused

// Puts the frame's payload of n bytes into a slot's part of the work area, behind the bytes that the part holds.
// Stays by way of an array: two parts of one area cannot be lent at once, and `copy_within` calls C's memmove.
fn place(work: &mut [u8], slot: usize, held: usize, n: usize)
    requires { (work_area ≤ length work.old) × (slot < slot_count) × (held + n ≤ max_command) }
    ensures { work.new ≡ write work.old (part_start slot + held) (take n (drop 8 work.old)) }
{
    let mut payload = [0u8; frame::MAX_COMMAND];
    let end = 8 + n;
    buffer::put(&mut payload, 0, &work[8..end]);
    let start = frame::FRAME_AREA + frame::MAX_COMMAND * slot;
    let stop = start + frame::MAX_COMMAND;
    buffer::put(&mut work[start..stop], held, &payload[..n]);
}

// The third body byte of a command that passed the check: the data bit, and 2 more if the command is written loosely.
fn command_byte(with_data: bool, command: &[u8]) -> u8
    requires { check_of command.now ≡ 0 }
    ensures { result ≡ command_byte with_data command.now }
{
    frame::bit(with_data) + 2 * frame::bit(loose::scan(command))
}

impl Channel {
    // What the frame of a header meets.
    #[tactic(auto, unfolding(crate::specs::Receiver::stream_open))]
    fn met(self, h: Header) -> Met
        ensures { result ≡ met_of self h }
    {
        let stream = (h.stream / 2) as usize;
        rules::look_up(&self.slots, self.streams[stream], h)
    }

    // The answer to a byte that refuses its frame.
    fn refused(self, rule: Rule) -> Fed
        ensures { result ≡ refused_with self (number_of rule) }
    {
        let n = u8::from(rule);
        let next = Channel {
            dead: n,
            pending: 0,
            ..self
        };
        next.answer(n, 1, 0)
    }

    // The answer to a byte whose frame is accepted, with the slots as the frame leaves them and the length of its record.
    fn accepted(self, h: Header, written: usize) -> Fed
        ensures { result ≡ accepted_with self h written }
    {
        let stream = (h.stream / 2) as usize;
        let mut next = self;
        next.pending = 0;
        next.streams[stream] = !h.ends();
        next.answer(0, 1, written)
    }

    // A command frame that rules 12 to 23 let pass.
    fn command(self, h: Header, m: Met, work: &mut [u8], out: &mut [u8], done: usize) -> Fed
        requires { (h.kind ≡ 1) × Passed self h m work.old }
        ensures { fed_with result work.new out.new ≡ judged_into out.old done self work.old }
    {
        let target = m.target.unwrap();
        let size = m.held + h.length;
        place(work, target, m.held, h.length);
        let next = self.with_slot(target, requests::command_slot(h, size));
        if h.is_more() {
            return next.accepted(h, 0);
        }
        let start = frame::FRAME_AREA + frame::MAX_COMMAND * target;
        let stop = start + size;
        if let Err(rule) = rules::command_number(&work[start..stop]) {
            return self.refused(rule);
        }
        let third = command_byte(h.data_follows(), &work[start..stop]);
        let written = frame::put_record(out, done, 1, h.request, third, &work[start..stop]);
        next.accepted(h, written)
    }

    // Data or settings that rules 12 to 23 let pass. Data of a request that drains gives no record.
    fn other(self, h: Header, m: Met, work: &[u8], out: &mut [u8], done: usize) -> Fed
        requires { (h.kind ≡ 1 → ⊥) × Passed self h m work.now }
        ensures { fed_with result work.now out.new ≡ judged_into out.old done self work.now }
    {
        let end = 8 + h.length;
        if let Err(rule) = rules::last_number(h, m, &work[8..end]) {
            return self.refused(rule);
        }
        if h.kind != 2 {
            return self.accepted(h, 0);
        }
        let place = m.place.unwrap();
        let x = requests::slot_at(&self.slots, place);
        let next = self.with_slot(place, requests::data_slot(x, h));
        if x.phase != Phase::Waiting {
            return next.accepted(h, 0);
        }
        let third = frame::bit(h.is_last());
        let written = frame::put_record(out, done, 2, h.request, third, &work[8..end]);
        next.accepted(h, written)
    }

    // The frame rules 12 to 29 on the whole frame in the work area.
    fn judge(self, work: &mut [u8], out: &mut [u8], done: usize) -> Fed
        requires { HasFrame self work.old }
        ensures { fed_with result work.new out.new ≡ judged_into out.old done self work.old }
    {
        let h = frame::read_header(&work[..]);
        let m = self.met(h);
        if let Err(rule) = rules::head_number(h, m) {
            return self.refused(rule);
        }
        if h.kind == 1 {
            return self.command(h, m, work, out, done);
        }
        self.other(h, m, &work[..], out, done)
    }
}
