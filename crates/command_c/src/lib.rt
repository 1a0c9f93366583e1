// The calls for C: a byte slice is a pointer and then a length, and the number is the result.
// Stays beside hgrpc's calls that answer alike: C has these by names of their own, in an archive of their own.
#![tactic(auto)]

ghost use Rattle.std.specs.Prelude.{◌≡◌};
ghost use Rattle.command.specs.Command.{checked, number_of};
ghost use Rattle.command.specs.Lookup.{place_number, number_number, number_value, count_of, mark_of, argument_at, integer_at};

// The check: 0, 24, 25 or 26.
#[unsafe(no_mangle)]
pub extern "C" fn command_check(command: &[u8]) -> u32
    ensures { result ≡ number_of (checked command.now) }
{
    command::name_number(command)
}

// How many arguments the command has, 0 if it is refused.
#[unsafe(no_mangle)]
pub extern "C" fn command_argument_count(command: &[u8]) -> u64
    ensures { result ≡ count_of command.now }
{
    command::argument_count(command)
}

// The mark of a command that is written loosely: 1 if one of its heads is not the shortest, else 0; 0 if it is refused.
#[unsafe(no_mangle)]
pub extern "C" fn command_loose(command: &[u8]) -> u32
    ensures { result ≡ mark_of command.now }
{
    command::loose(command)
}

// The lookup of an argument: the check's number, then 6.
#[unsafe(no_mangle)]
pub extern "C" fn command_argument_number(command: &[u8], key: &[u8]) -> u32
    ensures { result ≡ place_number (argument_at command.now key.now) }
{
    command::argument_number(command, key)
}

// An argument as an integer: the check's number, then 6, 7 or 8.
#[unsafe(no_mangle)]
pub extern "C" fn command_integer_number(command: &[u8], key: &[u8]) -> u32
    ensures { result ≡ number_number (integer_at command.now key.now) }
{
    command::integer_number(command, key)
}

// An argument as an integer, 0 if refused.
#[unsafe(no_mangle)]
pub extern "C" fn command_integer(command: &[u8], key: &[u8]) -> i64
    ensures { result ≡ number_value (integer_at command.now key.now) }
{
    command::integer(command, key)
}
