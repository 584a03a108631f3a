// Progress over a long trace, for who waits at a terminal: a line now and then.
use std::io::{IsTerminal, Stderr};

// So many turns go by between two lines.
const TURNS: u64 = 1_048_576;

// Only a terminal is told.
pub fn told(stderr: Stderr) -> Option<Stderr> {
    if stderr.is_terminal() {
        Some(stderr)
    } else {
        None
    }
}

// Where a line can't be written, the trace is played all the same.
pub fn tell(told: Option<Stderr>, turn: u64, records: u64) {
    if turn % TURNS == TURNS - 1 {
        if let Some(stderr) = told {
            let _ = eprintln!(stderr; "replay: {records} records");
        }
    }
}
