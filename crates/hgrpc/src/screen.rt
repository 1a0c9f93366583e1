// What a screen shows of a channel, for C and Rust: the count of its active requests, and a row of its slots.
ghost use Rattle.std.specs.Prelude.{◌≡◌};
ghost use Rattle.status.specs.Row.{shown, active_count};
ghost use Rattle.hgrpc.specs.Calls.{active_answer, row_answer};

// How many requests are active, of a dead channel too: 0; or 3 (bytes that are no state, too), and none.
#[unsafe(no_mangle)]
pub extern "C" fn hgrpc_active(state: &[u8], count: &mut usize) -> u32
    ensures { active_count result count.new ≡ active_answer state.now }
{
    *count = 0;
    let Some(channel) = layout::read(state) else {
        return 3;
    };
    match status::active(channel) {
        Ok(active) => {
            *count = active as usize;
            0
        }
        Err(refusal) => u8::from(refusal) as u32,
    }
}

// Fills a lent row of bytes, three for an entry, of a dead channel too: 3 (bytes that are no state, too), then 9 for less than eight
// entries, and nothing changes; else 0, and the bytes past the eighth entry stay.
#[unsafe(no_mangle)]
pub extern "C" fn hgrpc_row(state: &[u8], row: &mut [u8]) -> u32
    ensures { shown result row.new ≡ row_answer state.now row.old }
{
    let Some(channel) = layout::read(state) else {
        return 3;
    };
    match status::in_bytes::show_bytes(channel, row) {
        Ok(()) => 0,
        Err(refusal) => u8::from(refusal) as u32,
    }
}
