// Commands: the check of a command's bytes, and the lookups in a command that passes it.
#![tactic(auto)]

ghost use Rattle.std.specs.Prelude.{◌≡◌};
ghost use Rattle.command.specs.Command.{checked, number_of};
ghost use Rattle.command.specs.Lookup.{error_number, answer_number, place_number, number_number, number_value, signed_of, name_of, count_of, mark_of, argument_at, part_at, integer_at};
ghost use Rattle.command.specs.declared.LookupError.TheVariants.{NoCommand, OutOfRange};

use cbor::Item;
use command_map::{Command, Refusal};
use entries::Entry;
use std::num::TryFromIntError;

// Where an argument's value starts and stops.
// Stays a start and a stop: C has a part by its place and its length.
#[derive(Clone, Copy, Debug, PartialEq, Eq)]
pub struct Place {
    pub start: usize,
    pub stop: usize,
}

// Why a lookup finds nothing: the bytes are no command, no argument has the key, it is no integer, or it is one outside 64 bits.
#[derive(Clone, Copy, Debug, PartialEq, Eq)]
pub enum LookupError {
    NoCommand(Refusal),
    Absent,
    OtherType,
    OutOfRange,
}

impl LookupError {
    // Document 01's number: the check's, 6, 7, 8.
    pub fn number(self) -> u32
        ensures { result ≡ error_number self }
    {
        match self {
            LookupError::NoCommand(refusal) => refusal.number(),
            LookupError::Absent => 6,
            LookupError::OtherType => 7,
            LookupError::OutOfRange => 8,
        }
    }
}

impl From<Refusal> for LookupError {
    ghost from_gives = { λ x e. e ≡ NoCommand x };

    fn from(refusal: Refusal) -> LookupError {
        LookupError::NoCommand(refusal)
    }
}

impl From<TryFromIntError> for LookupError {
    ghost from_gives = { λ _ e. e ≡ OutOfRange };

    fn from(_e: TryFromIntError) -> LookupError {
        LookupError::OutOfRange
    }
}

// The check of a command's bytes.
#[tactic(auto, unfolding(crate::specs::Command::checked))]
pub fn check(command: &[u8]) -> Result<Command, Refusal>
    ensures { result ≡ checked command.now }
{
    let Some(Item::Map(n, at)) = cbor::read_item(command, 0) else {
        if cbor::is_item(command) {
            return Err(Refusal::NotCommand);
        }
        return Err(Refusal::NotItem);
    };
    command_map::map_of(command, n, at)
}

// The refusal number of the check's answer, 0 for a command.
// Stays a number: README names it as the number of a check's answer.
pub fn refusal(c: Result<Command, Refusal>) -> u32
    ensures { result ≡ number_of c }
{
    match c {
        Ok(_) => 0,
        Err(refused) => refused.number(),
    }
}

// The refusal number of the name, which is the check's.
// Stays a number: C reads it, as it does those of the other lookups.
pub fn name_number(command: &[u8]) -> u32
    ensures { result ≡ number_of (checked command.now) }
{
    refusal(check(command))
}

// The content of the command's name; empty exactly if the command is refused.
// Stays without a Result: it could not fail, and NameEmpty in specs/Laws.antt speaks of its answer.
#[tactic(auto, unfolding(crate::specs::Lookup::name_of))]
pub fn name(command: &[u8]) -> &[u8]
    ensures { result.now ≡ name_of command.now }
{
    let Ok(c) = check(command) else {
        return &command[0..0];
    };
    keys::part(command, c.start, c.stop)
}

// How many arguments the command has, 0 if it is refused.
// Stays 0 where it is refused: C reads it.
#[tactic(auto, unfolding(crate::specs::Lookup::count_of))]
pub fn argument_count(command: &[u8]) -> u64
    ensures { result ≡ count_of command.now }
{
    let Ok(c) = check(command) else {
        return 0;
    };
    c.count
}

// The mark of a command that is written loosely: 1 if one of its heads is not the shortest, else 0; 0 if it is refused.
// Stays a number: C reads it.
pub fn loose(command: &[u8]) -> u32
    ensures { result ≡ mark_of command.now }
{
    u32::from(check(command).is_ok() && loose::scan(command))
}

// Where the value of an argument stands.
#[tactic(auto, unfolding(crate::specs::Lookup::argument_at))]
pub fn argument_at(command: &[u8], key: &[u8]) -> Result<Place, LookupError>
    ensures { result ≡ argument_at command.now key.now }
{
    let c = check(command)?;
    let Some(Entry::Keyed { stop, next, .. }) = entries::find_key(command, 6, key, c.count, c.first)
    else {
        return Err(LookupError::Absent);
    };
    Ok(Place {
        start: stop,
        stop: next,
    })
}

// The refusal number of a lookup's answer, 0 for what is there.
fn answer_number<T: Copy>(answer: Result<T, LookupError>) -> u32
    ensures { result ≡ answer_number answer }
{
    match answer {
        Ok(_) => 0,
        Err(e) => e.number(),
    }
}

// The refusal number of the lookup of an argument, 0 if it is there.
// Stays a number: C reads it.
pub fn argument_number(command: &[u8], key: &[u8]) -> u32
    ensures { result ≡ place_number (argument_at command.now key.now) }
{
    answer_number(argument_at(command, key))
}

// The whole item of an argument's value; empty exactly if the lookup is refused.
// Stays without a Result: it could not fail, and ValueEmpty in specs/Laws.antt speaks of its answer.
pub fn argument<'a, 'b>(command: &'a [u8], key: &'b [u8]) -> &'a [u8]
    ensures { result.now ≡ part_at command.now (argument_at command.now key.now) }
{
    let Ok(place) = argument_at(command, key) else {
        return &command[0..0];
    };
    keys::part(command, place.start, place.stop)
}

// An item as a signed integer.
fn signed_of(x: Option<Item>) -> Result<i64, LookupError>
    ensures { result ≡ signed_of x }
{
    match x {
        Some(Item::Unsigned(n, _)) => Ok(i64::try_from(n)?),
        Some(Item::Negative(n, _)) => Ok(-1 - i64::try_from(n)?),
        _ => Err(LookupError::OtherType),
    }
}

// An argument as a signed integer.
#[tactic(auto, unfolding(crate::specs::Lookup::integer_at))]
pub fn integer_at(command: &[u8], key: &[u8]) -> Result<i64, LookupError>
    ensures { result ≡ integer_at command.now key.now }
{
    let place = argument_at(command, key)?;
    signed_of(cbor::read_item(command, place.start))
}

// The refusal number of an argument as an integer, 0 if it is one.
// Stays a number: C reads it.
pub fn integer_number(command: &[u8], key: &[u8]) -> u32
    ensures { result ≡ number_number (integer_at command.now key.now) }
{
    answer_number(integer_at(command, key))
}

// An argument as a signed integer, 0 if refused.
// Stays 0 where it is refused: C reads it.
pub fn integer(command: &[u8], key: &[u8]) -> i64
    ensures { result ≡ number_value (integer_at command.now key.now) }
{
    integer_at(command, key).unwrap_or(0)
}
