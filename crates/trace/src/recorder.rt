// A record written into a lent room: the three numbers first into a room of their own, so that a record without place changes nothing.
ghost use mathlib.Core.{Path.◌≡◌, List.◌++◌};
ghost use Rattle.std.specs.Prelude.{◌≤◌, length, take};
ghost use Rattle.groups.specs.Groups.{number_bytes};
ghost use Rattle.trace.specs.Write.{Recorded, recorded, placed_in, record_in, start_in};

use crate::{MOST_STATION, is_one_frame, is_time};
use forms::put_run;
use groups::put_number;
use refusal::Refusal;

// Three numbers of at most ten bytes.
const NUMBERS: usize = 30;

// The number 1 at the start of the room, and how many bytes that takes; 20.
#[tactic(auto, using(crate::proofs::Recording::start_placed))]
pub fn write_start(room: &mut [u8]) -> Result<usize, Refusal>
    ensures { ◌≡◌ {A = Recorded} (recorded result room.new) (start_in room.old) }
{
    place(room, b"\x01", b"")
}

// A record at the start of the room, behind gaps of this sum, and how many bytes it takes; 34, 25, 35, 20.
#[tactic(auto, using(crate::proofs::Recording::recording))]
pub fn write(
    room: &mut [u8],
    sum: u64,
    gap: u64,
    station: u64,
    frame: &[u8],
) -> Result<usize, Refusal>
    ensures { ◌≡◌ {A = Recorded} (recorded result room.new) (record_in sum gap station frame.now room.old) }
{
    if !is_time(sum, gap) {
        return Err(Refusal::TimeSum);
    }
    if MOST_STATION < station {
        return Err(Refusal::StationNumber);
    }
    if !is_one_frame(frame) {
        return Err(Refusal::NotOneFrame);
    }
    let mut numbers = [0u8; NUMBERS];
    let n = put_numbers(&mut numbers, gap, station, frame.len() as u64);
    place(room, &numbers[..n], frame)
}

// The three numbers in front of a frame.
#[tactic(auto, using(crate::proofs::Recording::numbers))]
fn put_numbers(room: &mut [u8; NUMBERS], gap: u64, station: u64, size: u64) -> usize
    ensures is { take result room.new ≡ number_bytes gap ++ (number_bytes station ++ number_bytes size) }
    ensures there { result ≤ length room.new }
{
    let first = put_number(room, 0, gap);
    let second = put_number(room, first, station);
    put_number(room, second, size)
}

// Two runs of bytes at the start of the room, where both have place.
#[tactic(auto, using(crate::proofs::Recording::placing))]
fn place(room: &mut [u8], head: &[u8], rest: &[u8]) -> Result<usize, Refusal>
    ensures { ◌≡◌ {A = Recorded} (recorded result room.new) (placed_in (head.now ++ rest.now) room.old) }
{
    let n = rest.len();
    if room.len() < n {
        return Err(Refusal::RoomTooShort);
    }
    if room.len() - n < head.len() {
        return Err(Refusal::RoomTooShort);
    }
    let at = put_run(room, 0, head);
    let end = put_run(room, at, rest);
    Ok(end)
}
