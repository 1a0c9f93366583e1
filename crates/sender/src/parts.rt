// A command from its parts: a name, and the encoded pairs of its arguments with their number.
// Stays three parameters: `send` takes them so, and passes them on.
ghost use Rattle.std.specs.Prelude.{◌≡◌, ◌≤◌, length};
ghost use Rattle.buffer.specs.Bytes.{write};
ghost use Rattle.command.specs.Command.{checked, number_of};
ghost use Rattle.frame.specs.Limits.{max_command};
ghost use Rattle.sender.specs.Parts.{command_bytes, name_fits};
ghost use Rattle.sender.specs.Steps.{check_number};

use command_map::Refusal;
use double_keys::Keys;

// Whether a name has 1 to 64 bytes.
#[tactic(auto, unfolding(crate::specs::Parts::name_fits))]
fn name_fits(name: &[u8]) -> bool
    ensures { result ≡ name_fits name.now }
{
    (1..=64).contains(&name.len())
}

// The check of the command, told from its parts: the command is built nowhere, so it may have any length.
pub(crate) fn check(name: &[u8], pairs: &[u8], count: u64) -> Result<(), Refusal>
    ensures { check_number result ≡ number_of (checked (command_bytes name.now pairs.now count)) }
{
    let end = cbor::read_map(pairs, 6, count, 0).ok_or(Refusal::NotItem)?;
    if end != pairs.len() {
        return Err(Refusal::NotItem);
    }
    if !name_fits(name) {
        return Err(Refusal::NotCommand);
    }
    match double_keys::judge_keys(pairs, 6, count, 0) {
        Keys::Single => Ok(()),
        Keys::Double => Err(Refusal::DoubleKey),
        Keys::Others => Err(Refusal::NotCommand),
    }
}

// Puts the command into a buffer from its start, as far as the buffer goes, and answers the command's length.
// Stays a buffer and places: where a part stands follows from the length of the head before it.
pub(crate) fn put_command(out: &mut [u8], name: &[u8], pairs: &[u8], count: u64) -> usize
    requires { (length name.now ≤ 64) × (length pairs.now ≤ max_command) }
    ensures { (result ≡ length (command_bytes name.now pairs.now count)) × (out.new ≡ write out.old 0 (command_bytes name.now pairs.now count)) }
{
    buffer::put(out, 0, b"\xa2Dname");
    let start = 6 + cbor::put_head(out, 6, 2, name.len() as u64);
    buffer::put(out, start, name);
    let stop = start + name.len();
    buffer::put(out, stop, b"Dargs");
    let first = stop + 5 + cbor::put_head(out, stop + 5, 5, count);
    buffer::put(out, first, pairs);
    first + pairs.len()
}
