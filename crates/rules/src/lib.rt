// The frame rules 12 to 29, in number order, over a frame's header, what the frame meets, and its payload.
#![tactic(auto)]

ghost use Rattle.std.specs.Prelude.{◌≡◌, ◌&&◌, not, [], ltb, ◌+◌};
ghost use Rattle.command_map.specs.CommandMap.{refusal_number};
ghost use Rattle.frame.specs.Limits.{max_command};
ghost use Rattle.frame.specs.Frame.{framed, is_type};
ghost use Rattle.frame.specs.Settings.{is_identity};
ghost use Rattle.rules.specs.Rules.{first_broken, check_of};
ghost use Rattle.rules.specs.Stages.{number_of, broken_of, first_of, met_in, found_in, viewed, head_rules, last_rules};

use command_map::Refusal;
use frame::Header;
use requests::{Phase, Slot};

// A rule that a frame breaks, in the words and by the numbers of document 01.
#[derive(Clone, Copy, PartialEq, Eq)]
pub enum Rule {
    LongPayload = 11,
    EvenRequest = 12,
    EvenStream = 13,
    HighStreamFlag = 14,
    OtherType = 15,
    ClosedStream = 16,
    OpenStream = 17,
    BrokenFlags = 18,
    ActiveRequest = 19,
    NoFreeSlot = 20,
    NotCollecting = 21,
    OtherDataBit = 22,
    LongCommand = 23,
    NotItem = 24,
    NotCommand = 25,
    DoubleKey = 26,
    NoDataTaken = 27,
    SettingsNotFirst = 28,
    NotIdentity = 29,
}

// The number of a rule.
impl From<Rule> for u8 {
    ghost from_gives = { λ r n. n ≡ number_of r };

    fn from(rule: Rule) -> u8 {
        rule as u8
    }
}

// The rule of the check's refusal, which has its number.
impl From<Refusal> for Rule {
    ghost from_gives = { λ x r. number_of r ≡ refusal_number x };

    fn from(refusal: Refusal) -> Rule {
        match refusal {
            Refusal::NotItem => Rule::NotItem,
            Refusal::NotCommand => Rule::NotCommand,
            Refusal::DoubleKey => Rule::DoubleKey,
        }
    }
}

// What a frame meets: whether its stream is open; the index of its request's slot; the request's phase and data bit; whether no slot is
// free; and, of a command frame, the index of its slot and how many bytes of the command the slot's part holds.
#[derive(Clone, Copy)]
pub struct Met {
    is_open: bool,
    pub place: Option<usize>,
    phase: Phase,
    databit: bool,
    full: bool,
    pub target: Option<usize>,
    pub held: usize,
}

// The slot at the place that was found, a free one where none was.
fn found(slots: &[Slot; 8], place: Option<usize>) -> Slot
    ensures { result ≡ found_in slots.now place }
{
    match place {
        Some(i) => requests::slot_at(slots, i),
        None => Slot::free(),
    }
}

// What the frame of a header meets among the slots, on a stream that is open or not.
pub fn look_up(slots: &[Slot; 8], is_open: bool, h: Header) -> Met
    ensures { result ≡ met_in slots.now is_open h }
{
    let place = requests::place_of(slots, h.request);
    let lowest = requests::lowest_free(slots);
    let target = if h.is_new() { lowest } else { place };
    let x = found(slots, place);
    Met {
        is_open,
        place,
        phase: x.phase,
        databit: x.databit,
        full: lowest.is_none(),
        target,
        held: found(slots, target).length,
    }
}

// Refuses with the first rule of a table that is broken.
fn judge(table: &[(bool, Rule)]) -> Result<(), Rule>
    ensures { result ≡ first_of table.now }
{
    for (is_broken, rule) in table {
        if *is_broken {
            return Err(*rule);
        }
    }
    Ok(())
}

// Whether a command of this many bytes held and this many more is longer than 2,048 in all.
fn is_long(held: usize, more: usize) -> bool
    ensures { result ≡ ltb max_command (held + more) }
{
    frame::MAX_COMMAND < held || frame::MAX_COMMAND - held < more
}

// Rules 12 to 23: those that are tried before the payload is put in a slot's part.
pub fn head_number(h: Header, m: Met) -> Result<(), Rule>
    ensures { broken_of result ≡ first_broken head_rules (framed h []) (viewed m h []) }
{
    let free = m.phase == Phase::Free;
    let collects = m.phase == Phase::Collecting;
    let known = (h.kind == 1) | (h.kind == 2) | (h.kind == 9);
    let begins = h.begins();
    let command = h.kind == 1;
    let first = command & h.is_new();
    let further = command & !h.is_new();
    judge(&[
        (h.request % 2 == 0, Rule::EvenRequest),
        (h.stream % 2 == 0, Rule::EvenStream),
        (8 <= h.stream_flags, Rule::HighStreamFlag),
        (!known, Rule::OtherType),
        (!m.is_open & !begins, Rule::ClosedStream),
        (m.is_open & begins, Rule::OpenStream),
        (!h.flags_fit(), Rule::BrokenFlags),
        (first & !free, Rule::ActiveRequest),
        (first & m.full, Rule::NoFreeSlot),
        (further & !collects, Rule::NotCollecting),
        (
            further & (h.data_follows() != m.databit),
            Rule::OtherDataBit,
        ),
        (command & is_long(m.held, h.length), Rule::LongCommand),
    ])
}

// Rules 24 to 26: the check of a command that is whole.
#[tactic(auto, unfolding(crate::specs::Rules::check_of))]
pub fn command_number(command: &[u8]) -> Result<(), Rule>
    ensures { broken_of result ≡ check_of command.now }
{
    command::check(command)?;
    Ok(())
}

// Whether a frame is settings that read something else than `identity`.
#[tactic(auto, unfolding(frame::specs::Frame::is_type))]
fn is_unread(h: Header, payload: &[u8]) -> bool
    ensures { result ≡ (is_type 9 (framed h []) && not (is_identity payload.now)) }
{
    h.kind == 9 && !frame::is_identity(payload)
}

// Rules 27 to 29.
pub fn last_number(h: Header, m: Met, payload: &[u8]) -> Result<(), Rule>
    ensures { broken_of result ≡ first_broken last_rules (framed h payload.now) (viewed m h []) }
{
    judge(&[
        (
            (h.kind == 2) & !requests::takes_data(m.phase),
            Rule::NoDataTaken,
        ),
        ((h.kind == 9) & !h.begins(), Rule::SettingsNotFirst),
        (is_unread(h, payload), Rule::NotIdentity),
    ])
}
