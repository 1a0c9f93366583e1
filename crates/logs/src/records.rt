// The records of a log, whatever the width of their length fields.
ghost use Rattle.std.specs.Prelude.{◌≡◌, ◌-◌, ◌^◌, min, length};
ghost use Rattle.std.specs.Iterator.{at_most};
ghost use Rattle.logs.specs.Logs.{claimed};
ghost use Rattle.logs.specs.Steps.{front_length, front_taken};

// The records in front of a log whose length fields have W bytes, each as its bytes: up to the end or to one that is not all there.
#[derive(Drop)]
pub struct Records<'a, const W: usize> {
    rest: &'a [u8],
}

impl<'a, const W: usize> Records<'a, W> {
    pub fn of(log: &'a [u8]) -> Records<'a, W>
        ensures { result.rest.now ≡ log.now }
    {
        Records { rest: log }
    }
}

impl<'a, const W: usize> Iterator for Records<'a, W> {
    type Item = &'a [u8];

    ghost next_gives = { λ before stored after. front_taken W before.rest.now stored after.rest.now };

    ghost remaining = { λ records. at_most (length records.rest.now) };

    fn next(&mut self) -> Option<&'a [u8]> {
        let rest = self.rest;
        let n = record_length::<W>(rest)?;
        let (record, behind) = rest.split_at(n);
        self.rest = behind;
        Some(record)
    }
}

// How long the record in front of some bytes is, if it is all there, with a length field of W bytes.
pub fn record_length<const W: usize>(bytes: &[u8]) -> Option<usize>
    ensures { result ≡ front_length W bytes.now }
{
    let room = bytes.len().checked_sub(W)?.checked_sub(2)?;
    let body = length_in(&bytes[..W]);
    if (room as u64) < body {
        return None;
    }
    Some(W + 2 + body as usize)
}

// The number in a length field, lower bytes first; the largest u64 if it is more.
fn length_in(field: &[u8]) -> u64
    ensures { result ≡ min (claimed (length field.now) field.now) (2 ^ 64 - 1) }
{
    let mut number: u64 = 0;
    for i in (0..field.len()).rev() {
        number = number.saturating_mul(256).saturating_add(field[i] as u64);
    }
    number
}
