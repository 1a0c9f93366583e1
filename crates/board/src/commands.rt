// What a command asks of the board, by the receiver's check and lookups alone.
ghost use Rattle.std.specs.Prelude.{◌≡◌};
ghost use Rattle.board.specs.Commands.{set_change, label_change, by_name, change_of};
ghost use Rattle.board.specs.Steps.{switch_in, coil_in, text_place, word_of, takes};

use crate::{COILS, Change, LONGEST_LABEL, Refusal};
use cbor::Item;
use command::LookupError;

// The commands' names.
#[derive(Clone, Copy, PartialEq, Eq)]
enum Word {
    Set,
    Label,
    Off,
}

impl Word {
    fn of(name: &[u8]) -> Option<Word>
        ensures { result ≡ word_of name.now }
    {
        if keys::same_key(b"set", name) {
            Some(Word::Set)
        } else if keys::same_key(b"label", name) {
            Some(Word::Label)
        } else if keys::same_key(b"off", name) {
            Some(Word::Off)
        } else {
            None
        }
    }

    // How many arguments the command takes.
    fn takes(self) -> u64
        ensures { result ≡ takes self }
    {
        match self {
            Word::Set => 2,
            Word::Label => 2,
            Word::Off => 0,
        }
    }
}

// The coil that an argument names; an integer outside 64 bits names none, as each outside 0 to 15.
#[tactic(auto, unfolding(crate::specs::Steps::coil_in))]
fn coil_in(z: Result<i64, LookupError>) -> Result<usize, Refusal>
    ensures { result ≡ coil_in z }
{
    match z {
        Ok(n) => match usize::try_from(n) {
            Ok(coil) if coil < COILS => Ok(coil),
            _ => Err(Refusal::NoCoil),
        },
        Err(LookupError::OutOfRange) => Err(Refusal::NoCoil),
        Err(_) => Err(Refusal::WrongArgument),
    }
}

// The switch that an item is.
#[tactic(auto, unfolding(crate::specs::Steps::switch_in, crate::specs::Commands::is_switch, crate::specs::Commands::is_true))]
fn switch_in(item: &[u8]) -> Result<bool, Refusal>
    ensures { result ≡ switch_in item.now }
{
    if keys::same_key(b"\xf5", item) {
        return Ok(true);
    }
    if keys::same_key(b"\xf4", item) {
        return Ok(false);
    }
    Err(Refusal::WrongArgument)
}

// Where the text of `text` starts and stops, none where it is missing or no byte string.
#[tactic(auto, unfolding(crate::specs::Commands::text_item, crate::specs::Steps::text_place))]
fn text_place(command: &[u8]) -> Option<(usize, usize)>
    ensures { result ≡ text_place command.now }
{
    let place = command::argument_at(command, b"text").ok()?;
    let Item::Bytes(start, stop) = cbor::read_item(command, place.start)? else {
        return None;
    };
    Some((start, stop))
}

// What `set` asks for: first the arguments' types are judged, and then the coil.
fn set_change(command: &[u8]) -> Result<Change, Refusal>
    ensures { result ≡ set_change command.now }
{
    let on = switch_in(command::argument(command, b"on"))?;
    let coil = coil_in(command::integer_at(command, b"coil"))?;
    Ok(Change::Switch(coil, on))
}

// What `label` asks for: first the arguments' types are judged, then the coil, and then the text's length.
fn label_change(command: &[u8]) -> Result<Change, Refusal>
    ensures { result ≡ label_change command.now }
{
    let (start, stop) = text_place(command).ok_or(Refusal::WrongArgument)?;
    let coil = coil_in(command::integer_at(command, b"coil"))?;
    let text = keys::part(command, start, stop);
    if LONGEST_LABEL < text.len() {
        return Err(Refusal::LongText);
    }
    Ok(Change::Label(coil, start, stop))
}

// What a command of this name, with so many arguments, asks for. Arguments are looked up only where there are as many as the command takes,
// so that many of them cost no more than their check.
#[tactic(auto, unfolding(crate::specs::Commands::by_name))]
fn by_name(command: &[u8], name: &[u8], count: u64) -> Result<Change, Refusal>
    ensures { result ≡ by_name command.now name.now count }
{
    let word = Word::of(name).ok_or(Refusal::UnknownCommand)?;
    if count != word.takes() {
        return Err(Refusal::WrongArgument);
    }
    match word {
        Word::Set => set_change(command),
        Word::Label => label_change(command),
        Word::Off => Ok(Change::AllOff),
    }
}

// What a command asks for; the check's refusal comes first.
pub(crate) fn change_of(command: &[u8]) -> Result<Change, Refusal>
    ensures { result ≡ change_of command.now }
{
    let c = command::check(command)?;
    by_name(command, keys::part(command, c.start, c.stop), c.count)
}
