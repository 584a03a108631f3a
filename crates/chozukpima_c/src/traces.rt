// Traces of what arrived: recorded by a host while it runs, and read again.
ghost use Rattle.std.specs.Prelude.{◌≡◌};
ghost use Rattle.trace.specs.Record.{start_of};
ghost use Rattle.chozukpima.specs.{Messages.Filled, Messages.filled};
ghost use Rattle.chozukpima.specs.Traces.{trace_start_returns, open_answer, Timed, timed, record_returns, Advanced, advanced, recorded_returns};

// The start of a trace, at the start of the room; 20.
#[unsafe(no_mangle)]
pub extern "C" fn chz_trace_start(room: &mut [u8]) -> u64
    ensures { ◌≡◌ {A = Filled} (filled result room.new) (trace_start_returns room.old) }
{
    chozukpima::traces::chz_trace_start(room)
}

// A record, at the start of the room; its gap is added to the time; 34, 25, 35, 20.
#[unsafe(no_mangle)]
pub extern "C" fn chz_record(
    time: &mut u64,
    gap: u64,
    station: u64,
    frame: &[u8],
    room: &mut [u8],
) -> u64
    ensures { ◌≡◌ {A = Timed} (timed result time.new room.new) (record_returns time.old gap station frame.now room.old) }
{
    chozukpima::traces::chz_record(time, gap, station, frame, room)
}

// The start of a trace in bytes: how many it takes; 33, 32, 31.
#[unsafe(no_mangle)]
pub extern "C" fn chz_trace_open(bytes: &[u8]) -> u64
    ensures { result ≡ open_answer (start_of bytes.now) }
{
    chozukpima::traces::chz_trace_open(bytes)
}

// A record at the start of the bytes; its gap is added to the time; 33, 32, 34, 25, 35.
#[unsafe(no_mangle)]
pub extern "C" fn chz_recorded(time: &mut u64, bytes: &[u8]) -> u64
    ensures { ◌≡◌ {A = Advanced} (advanced result time.new) (recorded_returns time.old bytes.now) }
{
    chozukpima::traces::chz_recorded(time, bytes)
}
