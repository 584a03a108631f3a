// Traces of what arrived: recorded by a host while it runs, and read again.
ghost use Rattle.std.specs.Prelude.{◌≡◌, ◌≤◌, ◌<◌};
ghost use Rattle.trace.specs.Record.{start_of};
ghost use Rattle.chozukpima.specs.{Messages.Filled, Messages.filled};
ghost use Rattle.chozukpima.specs.Traces.{trace_start_returns, open_answer, Timed, timed, record_returns, entry_answer, Advanced, advanced, recorded_returns};

use crate::answer::{pack, refuse, value_answer};
use trace::Entry;

// The start of a trace, at the start of the room; 20.
#[tactic(auto, unfolding(crate::specs::Traces::trace_start_returns))]
pub fn chz_trace_start(room: &mut [u8]) -> u64
    ensures { ◌≡◌ {A = Filled} (filled result room.new) (trace_start_returns room.old) }
{
    value_answer(trace::write_start(room))
}

// A record, at the start of the room; its gap is added to the time; 34, 25, 35, 20.
#[tactic(auto, unfolding(crate::specs::Traces::record_returns))]
pub fn chz_record(time: &mut u64, gap: u64, station: u64, frame: &[u8], room: &mut [u8]) -> u64
    ensures { ◌≡◌ {A = Timed} (timed result time.new room.new) (record_returns time.old gap station frame.now room.old) }
{
    match trace::write(room, *time, gap, station, frame) {
        Ok(length) => {
            *time = *time + gap;
            pack(0, 0, length)
        }
        Err(r) => refuse(r),
    }
}

// The start of a trace in bytes: how many it takes; 33, 32, 31.
pub fn chz_trace_open(bytes: &[u8]) -> u64
    ensures { result ≡ open_answer (start_of bytes.now) }
{
    value_answer(trace::start(bytes).map(|n| n.next))
}

// A record at the start of the bytes; its gap is added to the time; 33, 32, 34, 25, 35.
#[tactic(auto, using(trace::proofs::Entries::entries), unfolding(crate::specs::Traces::recorded_returns))]
pub fn chz_recorded(time: &mut u64, bytes: &[u8]) -> u64
    ensures { ◌≡◌ {A = Advanced} (advanced result time.new) (recorded_returns time.old bytes.now) }
{
    match trace::read(bytes, *time) {
        Ok(e) => {
            *time = *time + e.gap;
            entry_answer(e)
        }
        Err(r) => refuse(r),
    }
}

// Record, frame and station, each in its own bits.
#[tactic(auto, unfolding(crate::specs::Traces::entry_answer))]
fn entry_answer(e: Entry) -> u64
    requires { (e.from ≤ 30) × ((e.size ≤ 4108) × (e.station < 64)) }
    ensures { result ≡ entry_answer e }
{
    pack(
        0,
        0,
        e.from + e.size + (65536 * e.size + 0x1_0000_0000 * (e.station as usize)),
    )
}
