// The sending call, for C and Rust.
ghost use Rattle.std.specs.Prelude.{◌≡◌};
ghost use Rattle.sender.specs.Parts.{command_bytes};
ghost use Rattle.buffer.specs.Answers.{answer};
ghost use Rattle.sender.specs.Send.{send_of};

use sender::Wishes;

// Writes the frames that carry a command and, where it has some, its data: 0 and the bytes written; or 50, 51, 52, 53 or 54, nothing is
// written, and the output is unchanged.
// Stays with `with_data` beside `data`, and a number: the C interface.
#[unsafe(no_mangle)]
pub extern "C" fn hgrpc_send(
    name: &[u8],
    pairs: &[u8],
    count: u64,
    request: u16,
    stream: u8,
    begin: bool,
    end: bool,
    size: usize,
    with_data: bool,
    data: &[u8],
    out: &mut [u8],
    written: &mut usize,
) -> u32
    ensures { answer result written.new out.new ≡ send_of (record { request = request; stream = stream; begin = begin; end = end; size = size }) (command_bytes name.now pairs.now count) with_data «data».now out.old }
{
    let how = Wishes {
        request,
        stream,
        begin,
        end,
        size,
    };
    *written = 0;
    let data = with_data.then_some(data);
    match sender::send(out, how, name, pairs, count, data) {
        Ok(n) => {
            *written = n;
            0
        }
        Err(refusal) => u32::from(refusal),
    }
}
