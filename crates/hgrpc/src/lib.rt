// The channel for C and Rust: its state is a lent run of bytes. A byte slice is a pointer and then a length; the number is the result. The
// board's calls are in boards.rt, those on a command's bytes in commands.rt, those for a screen in screen.rt, the sending one in sending.rt,
// those on stored logs in stored.rt and compared.rt.
#![tactic(auto)]

mod boards;
mod commands;
mod compared;
mod screen;
mod sending;
mod stored;

ghost use Rattle.std.specs.Prelude.{◌≡◌};
ghost use Rattle.hgrpc.specs.Calls.{kept, answer, fresh_answer, finish_answer, feed_answer};

use channel::Channel;

// Makes the lent bytes a fresh state: 0, or 3 where they have another length.
#[unsafe(no_mangle)]
pub extern "C" fn hgrpc_fresh(state: &mut [u8]) -> u32
    ensures { kept result state.new ≡ fresh_answer state.old }
{
    if state.len() != layout::STATE {
        return 3;
    }
    layout::put_state(state, Channel::fresh());
    0
}

// Takes bytes of the input and writes the records of the frames that they complete: 2, 3 (bytes that are no state, too), the dead number or
// 1, and nothing changes; else 0, 5 or the number of the frame refused.
#[unsafe(no_mangle)]
pub extern "C" fn hgrpc_feed(
    state: &mut [u8],
    work: &mut [u8],
    input: &[u8],
    out: &mut [u8],
    taken: &mut usize,
    written: &mut usize,
) -> u32
    ensures { answer result taken.new written.new state.new work.new out.new ≡ feed_answer state.old work.old input.now out.old }
{
    *taken = 0;
    *written = 0;
    if work.len() < frame::WORK_AREA {
        return 2;
    }
    let Some(channel) = layout::read(&state[..]) else {
        return 3;
    };
    let fed = channel.feed(work, input, out);
    *taken = fed.taken;
    *written = fed.written;
    layout::put_state(state, fed.channel);
    fed.number as u32
}

// The owner's finish of a request: 3 (bytes that are no state, too), the dead number, 4, or 0 and the slot is free.
#[unsafe(no_mangle)]
pub extern "C" fn hgrpc_finish(state: &mut [u8], id: u16) -> u32
    ensures { kept result state.new ≡ finish_answer state.old id }
{
    let Some(channel) = layout::read(&state[..]) else {
        return 3;
    };
    match channel.finish(id) {
        Ok(next) => {
            layout::put_state(state, next);
            0
        }
        // The state stays, and its bytes with it: it has no others.
        Err(refusal) => u8::from(refusal) as u32,
    }
}
