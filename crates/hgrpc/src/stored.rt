// The calls on stored logs, for C and Rust.
ghost use Rattle.std.specs.Prelude.{◌≡◌};
ghost use Rattle.buffer.specs.Answers.{answer};
ghost use Rattle.logs.specs.Logs.{whole_length};
ghost use Rattle.logs.specs.Convert.{convert_of};

// Rewrites a log with two-byte lengths into one with four-byte lengths: 0 and the bytes written; or 70 or 71, nothing is written, and the
// output is unchanged.
#[unsafe(no_mangle)]
pub extern "C" fn hgrpc_convert(log: &[u8], out: &mut [u8], written: &mut usize) -> u32
    ensures { answer result written.new out.new ≡ convert_of log.now out.old }
{
    match logs::convert(log, out) {
        Ok(n) => {
            *written = n;
            0
        }
        Err(refusal) => {
            *written = 0;
            u32::from(refusal)
        }
    }
}

// How many bytes the whole records in front of a log with two-byte lengths take: all of them, or those before a broken record.
#[unsafe(no_mangle)]
pub extern "C" fn hgrpc_whole(log: &[u8]) -> usize
    ensures { result ≡ whole_length 2 log.now }
{
    logs::whole(log)
}
