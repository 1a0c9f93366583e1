// The check of a command's bytes and the lookups, for C and Rust. A part of the command is given by its place and its length.
ghost use Rattle.std.specs.Prelude.{◌≡◌};
ghost use Rattle.command.specs.Command.{checked, number_of};
ghost use Rattle.command.specs.Lookup.{count_of, mark_of};
ghost use Rattle.hgrpc.specs.Calls.{part, integer, name_answer, argument_answer, integer_answer};

// The check of a command's bytes: 0, 24, 25 or 26.
#[unsafe(no_mangle)]
pub extern "C" fn hgrpc_check(command: &[u8]) -> u32
    ensures { result ≡ number_of (checked command.now) }
{
    command::name_number(command)
}

// How many arguments a command has, 0 if it is refused.
#[unsafe(no_mangle)]
pub extern "C" fn hgrpc_argument_count(command: &[u8]) -> u64
    ensures { result ≡ count_of command.now }
{
    command::argument_count(command)
}

// The mark of a command that is written loosely: 1 if one of its heads is not the shortest, else 0; 0 if it is refused.
#[unsafe(no_mangle)]
pub extern "C" fn hgrpc_loose(command: &[u8]) -> u32
    ensures { result ≡ mark_of command.now }
{
    command::loose(command)
}

// Where a command's name stands, and its length: 0, or the check's number and 0 and 0.
#[tactic(auto, unfolding(crate::specs::Calls::name_answer))]
#[unsafe(no_mangle)]
pub extern "C" fn hgrpc_name(command: &[u8], at: &mut usize, size: &mut usize) -> u32
    ensures { part result at.new size.new ≡ name_answer command.now }
{
    match command::check(command) {
        Ok(c) => {
            *at = c.start;
            *size = c.stop.saturating_sub(c.start);
            0
        }
        Err(refused) => {
            *at = 0;
            *size = 0;
            refused.number()
        }
    }
}

// Where the value of an argument stands, and its length: 0, or the check's number, then 6, and 0 and 0.
#[tactic(auto, unfolding(crate::specs::Calls::argument_answer))]
#[unsafe(no_mangle)]
pub extern "C" fn hgrpc_argument(
    command: &[u8],
    key: &[u8],
    at: &mut usize,
    size: &mut usize,
) -> u32
    ensures { part result at.new size.new ≡ argument_answer command.now key.now }
{
    match command::argument_at(command, key) {
        Ok(place) => {
            *at = place.start;
            *size = place.stop.saturating_sub(place.start);
            0
        }
        Err(e) => {
            *at = 0;
            *size = 0;
            e.number()
        }
    }
}

// An argument as an integer: 0, or the check's number, then 6, 7 or 8, and 0.
#[tactic(auto, unfolding(crate::specs::Calls::integer_answer))]
#[unsafe(no_mangle)]
pub extern "C" fn hgrpc_integer(command: &[u8], key: &[u8], value: &mut i64) -> u32
    ensures { integer result value.new ≡ integer_answer command.now key.now }
{
    match command::integer_at(command, key) {
        Ok(z) => {
            *value = z;
            0
        }
        Err(e) => {
            *value = 0;
            e.number()
        }
    }
}
