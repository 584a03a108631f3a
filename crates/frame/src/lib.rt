// One BSSCI frame at the start of the bytes that arrived: identifier, size, payload.
#![tactic(auto)]

ghost use Rattle.std.specs.Prelude.{◌≡◌};
ghost use Rattle.frame.specs.Frame.{identifier, agrees, framed_of, payload_of};

use refusal::Refusal;

// A frame's identifier, eight bytes as one number, and its size, four bytes, stand in front of its payload.
pub const IDENTIFIER: u64 = 0x4D49_4F54_5942_3031;

// The identifier's bytes without the last.
const FIRST_SEVEN: u64 = 0x4D_494F_5459_4230;

pub const HEAD: usize = 12;

// The size of the payload of a whole frame at the start of the input: any input, also empty, also longer than a frame.
#[tactic(auto, using(crate::proofs::Answers::answers))]
pub fn read(s: &[u8]) -> Result<usize, Refusal>
    ensures { result ≡ framed_of s.now }
{
    if !agrees(s) {
        return Err(Refusal::FrameIdentifier);
    }
    if s.len() < HEAD {
        return Err(Refusal::FrameIncomplete);
    }
    let n = octets::little_at(s, 8, 4) as usize;
    if !octets::is_size(n) {
        return Err(Refusal::Size);
    }
    if s.len() - HEAD < n {
        return Err(Refusal::FrameIncomplete);
    }
    Ok(n)
}

// The payload of a frame whose size is known: that part of the input, not a copy.
#[tactic(auto, using(crate::proofs::Answers::parts))]
pub fn payload(s: &[u8], size: usize) -> &[u8]
    ensures { result.now ≡ payload_of size s.now }
{
    if s.len() < HEAD {
        return &[];
    }
    let rest = &s[HEAD..];
    &rest[..size.min(rest.len())]
}

// No byte that is there differs from the identifier's: both are compared as numbers, of eight bytes or of as many as are there.
#[tactic(auto, using(crate::proofs::Identifier::agreements))]
fn agrees(s: &[u8]) -> bool
    ensures { result ≡ agrees identifier s.now }
{
    let n = s.len();
    if n < 8 {
        return octets::big_at(s, 0, n) == FIRST_SEVEN >> (56 - 8 * n);
    }
    octets::big_at(s, 0, 8) == IDENTIFIER
}
