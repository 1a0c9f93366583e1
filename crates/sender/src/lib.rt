// The sending side: a command from its parts, and the frames that carry it.
#![tactic(auto)]

mod frames;
mod parts;

ghost use Rattle.std.specs.Prelude.{◌≡◌, is_some};
ghost use Rattle.sender.specs.Parts.{command_bytes};
ghost use Rattle.sender.specs.Send.{refusal_number, refused_by, answered, data_bytes, send_of};
ghost use Rattle.sender.specs.Steps.{wish_number};
ghost use Rattle.sender.specs.declared.Refusal.TheVariants.{BadCommand};

// The largest payload size that may be wished.
pub const MAX_SIZE: usize = 4096;

// How a command is sent: its request id, its stream id with the wishes for its beginning and its end, and the payload size of a full
// frame.
#[derive(Clone, Copy)]
pub struct Wishes {
    pub request: u16,
    pub stream: u8,
    pub begin: bool,
    pub end: bool,
    pub size: usize,
}

// Why the sending call refuses: an even request or stream id, a size outside 1 to 4,096, a command the check would refuse, a command over
// 2,048 bytes, output too short for the exact total.
#[derive(Clone, Copy, Debug, PartialEq, Eq)]
pub enum Refusal {
    EvenId,
    Size,
    BadCommand,
    LongCommand,
    ShortOutput,
}

impl From<command_map::Refusal> for Refusal {
    ghost from_gives = { λ _ r. r ≡ BadCommand };

    fn from(_: command_map::Refusal) -> Refusal {
        Self::BadCommand
    }
}

impl From<Refusal> for u32 {
    ghost from_gives = { λ r n. n ≡ refusal_number r };

    fn from(r: Refusal) -> u32 {
        match r {
            Refusal::EvenId => 50,
            Refusal::Size => 51,
            Refusal::BadCommand => 52,
            Refusal::LongCommand => 53,
            Refusal::ShortOutput => 54,
        }
    }
}

impl Wishes {
    // Refuses an even id and a size outside the range.
    #[tactic(auto, unfolding(crate::specs::Steps::wish_number, frame::specs::Frame::is_even))]
    fn check(self) -> Result<(), Refusal>
        ensures { refused_by result ≡ wish_number self }
    {
        if (self.request % 2 == 0) | (self.stream % 2 == 0) {
            return Err(Refusal::EvenId);
        }
        if (self.size == 0) | (MAX_SIZE < self.size) {
            return Err(Refusal::Size);
        }
        Ok(())
    }
}

// Writes the frames that carry a command and, where it has some, its data, and answers how many bytes they are. It refuses in the order of
// `Refusal`, with the output unchanged.
pub fn send(
    out: &mut [u8],
    how: Wishes,
    name: &[u8],
    pairs: &[u8],
    count: u64,
    data: Option<&[u8]>,
) -> Result<usize, Refusal>
    ensures { answered result out.new ≡ send_of how (command_bytes name.now pairs.now count) (is_some «data».entry) (data_bytes «data».entry) out.old }
{
    how.check()?;
    parts::check(name, pairs, count)?;
    if frame::MAX_COMMAND < pairs.len() {
        return Err(Refusal::LongCommand);
    }
    let mut row = [0u8; frame::MAX_COMMAND];
    let n = parts::put_command(&mut row, name, pairs, count);
    let command = row.get(..n).ok_or(Refusal::LongCommand)?;
    frames::put_message(out, how, command, data)
}
