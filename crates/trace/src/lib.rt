// A trace of what arrived: its start and its records, read from bytes and written into a lent room.
#![tactic(auto)]

mod reader;
mod recorder;

ghost use Rattle.std.specs.Prelude.{◌≡◌, ◌+◌};
ghost use Rattle.trace.specs.Record.{is_one_frame, is_time};

pub use reader::{read, start};
pub use recorder::{write, write_start};

// Stations are numbered from 0.
const MOST_STATION: u64 = 63;

// A record: its gap, its station, where its frame begins and how long it is; the record ends with it.
#[derive(Clone, Copy, Debug, PartialEq, Eq)]
pub struct Entry {
    pub gap: u64,
    pub station: u64,
    pub from: usize,
    pub size: usize,
}

// Whether the bytes are one whole frame and no more.
#[tactic(auto, using(crate::proofs::Reading::frames))]
fn is_one_frame(f: &[u8]) -> bool
    ensures { result ≡ is_one_frame f.now }
{
    match frame::read(f) {
        Ok(n) => f.len() - frame::HEAD == n,
        Err(_) => false,
    }
}

// Whether the gap can be added to the sum of those before it.
fn is_time(sum: u64, gap: u64) -> bool
    ensures { result ≡ is_time (sum + gap) }
{
    gap <= u64::MAX - sum
}
