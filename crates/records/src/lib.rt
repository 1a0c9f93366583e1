// A record of the channel, read back by document 01's layout: the body's length, the kind, the request and a byte, then a command or data.
#![tactic(auto)]

ghost use Rattle.std.specs.Prelude.{◌≡◌, ◌<◌, drop};
ghost use Rattle.records.specs.Records.{number_at, head_of, runs};

// The numbers in front of a record. The bit is the data bit of a command (kind 1) and the last bit of data (kind 2); `loose` is 1 where a
// command is written loosely, one of its heads not the shortest, and 0 for data.
// Stays in numbers: any two bytes may stand where the kind does, and `AllReadBack` speaks of every kind, bit and mark.
#[derive(Clone, Copy)]
pub struct Head {
    pub kind: u16,
    pub request: u16,
    pub bit: u8,
    pub loose: u8,
}

// The head of a record. A byte that is not there counts as 0.
#[tactic(auto, unfolding(crate::specs::Records::head_of))]
pub fn read_head(bytes: &[u8]) -> Head
    ensures { result ≡ head_of bytes.now }
{
    let third = frame::byte_at(bytes, 8);
    Head {
        kind: number_at(bytes, 4),
        request: number_at(bytes, 6),
        bit: third % 2,
        loose: third / 2 % 2,
    }
}

// The bytes behind the head: a command or data.
pub fn content(bytes: &[u8]) -> &[u8]
    ensures { result.now ≡ drop 9 bytes.now }
{
    keys::part(bytes, 9, bytes.len())
}

impl Head {
    // Whether a record makes its request run: a command that no data follows, loosely written or not, or the last data.
    #[tactic(auto, unfolding(crate::specs::Records::runs))]
    pub fn runs(self) -> bool
        ensures { result ≡ runs self }
    {
        ((self.kind == 1) & (self.bit == 0)) | ((self.kind == 2) & (self.bit == 1))
    }
}

// The number in two bytes from a place on, the lower first.
#[tactic(auto, unfolding(crate::specs::Records::number_at))]
fn number_at(s: &[u8], i: usize) -> u16
    requires { i < 8 }
    ensures { result ≡ number_at s.now i }
{
    u16::from_le_bytes([frame::byte_at(s, i), frame::byte_at(s, i + 1)])
}
