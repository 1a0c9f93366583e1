// Bytes put into a lent buffer.
#![tactic(auto)]

ghost use Rattle.std.specs.Prelude.{◌≡◌};
ghost use Rattle.buffer.specs.Bytes.{write};

// Copies the bytes into a buffer from a place on, as far as the buffer goes.
pub fn put(buffer: &mut [u8], at: usize, bytes: &[u8])
    ensures { buffer.new ≡ write buffer.old at bytes.now }
{
    if buffer.len() <= at {
        return;
    }
    let n = bytes.len().min(buffer.len() - at);
    // Stays a loop: the library's copy of slices calls C's memmove, and the archives need memcpy and memset alone.
    for i in 0..n {
        buffer[at + i] = bytes[i];
    }
}
