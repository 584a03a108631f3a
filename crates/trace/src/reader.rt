// A record read from left to right: each number, then what it may be.
ghost use Rattle.std.specs.Prelude.{◌≡◌, ◌≤◌, length};
ghost use Rattle.trace.specs.Record.{frame_at, length_at, station_at, entry_of, start_of};

use crate::{Entry, MOST_STATION, is_one_frame, is_time};
use groups::{Number, number_at};
use refusal::Refusal;

// The shortest and the longest whole frame.
const LEAST_FRAME: u64 = 13;

const MOST_FRAME: u64 = 4108;

// The start of a trace; 33, 32, 31.
#[tactic(auto, using(crate::proofs::Reading::reading))]
pub fn start(s: &[u8]) -> Result<Number, Refusal>
    ensures { result ≡ start_of s.now }
{
    let n = number_at(s, 0)?;
    if n.value != 1 {
        return Err(Refusal::NotATrace);
    }
    Ok(n)
}

// The record at the start of the bytes, behind gaps of this sum; 33, 32, 34, 33, 32, 25, 33, 32, 35, 33, 35.
#[tactic(auto, using(crate::proofs::Reading::reading))]
pub fn read(s: &[u8], sum: u64) -> Result<Entry, Refusal>
    ensures { result ≡ entry_of sum s.now }
{
    let n = number_at(s, 0)?;
    if !is_time(sum, n.value) {
        return Err(Refusal::TimeSum);
    }
    station_at(s, n.value, n.next)
}

#[tactic(auto, using(crate::proofs::Reading::reading))]
fn station_at(s: &[u8], gap: u64, at: usize) -> Result<Entry, Refusal>
    ensures { result ≡ station_at s.now gap at }
{
    let n = number_at(s, at)?;
    if MOST_STATION < n.value {
        return Err(Refusal::StationNumber);
    }
    length_at(s, gap, n.value, n.next)
}

#[tactic(auto, using(crate::proofs::Reading::reading))]
fn length_at(s: &[u8], gap: u64, station: u64, at: usize) -> Result<Entry, Refusal>
    ensures { result ≡ length_at s.now gap station at }
{
    let n = number_at(s, at)?;
    if (n.value < LEAST_FRAME) | (MOST_FRAME < n.value) {
        return Err(Refusal::NotOneFrame);
    }
    frame_at(s, gap, station, n.next, n.value as usize)
}

#[tactic(auto, using(crate::proofs::Reading::reading))]
fn frame_at(s: &[u8], gap: u64, station: u64, from: usize, size: usize) -> Result<Entry, Refusal>
    requires { from ≤ length s.now }
    ensures { result ≡ frame_at s.now gap station from size }
{
    if s.len() - from < size {
        return Err(Refusal::InputEnds);
    }
    let e = from + size;
    if !is_one_frame(&s[from..e]) {
        return Err(Refusal::NotOneFrame);
    }
    Ok(Entry {
        gap,
        station,
        from,
        size,
    })
}
