// Plays a recorded day again: `replay TRACE ENROLMENTS` prints a line for each reading that is new to the meter table (document 02, Q-3). What is done with
// the bytes stands in `day`; here the two files are read in pieces, the enrolments first, and turns follow one another.
#![tactic(auto)]

mod enrolments;
mod files;
mod progress;
mod records;

use hand::Failed;
use meters::Table;
use std::io::{Read, Stderr, Write};
use std::os::fd::AsRawFd;
use std::process::ExitCode;

// The rows of the table.
const ROWS: usize = 1024;

// Both files are opened before one is read. Where standard input is closed, the enrolments have its number. To be called otherwise is no failure, and is
// answered by how it is called.
fn main(rt: HostRuntime) -> ExitCode {
    if !files::are_two(&rt) {
        files::usage(&rt, "replay: it takes two files");
        return ExitCode::SUCCESS;
    }
    let Some(mut enrolments) = files::open(&rt, 2) else {
        return ExitCode::FAILURE;
    };
    let told = progress::told(rt.stderr());
    if files::is_dash(&rt, 1) {
        let mut trace = rt.stdin();
        if enrolments.as_raw_fd() == trace.as_raw_fd() {
            files::usage(&rt, "replay: trace: standard input is not open");
            return ExitCode::FAILURE;
        }
        return replay(&rt, told, &mut trace, &mut enrolments, &mut rt.stdout());
    }
    let Some(mut trace) = files::open(&rt, 1) else {
        return ExitCode::FAILURE;
    };
    replay(&rt, told, &mut trace, &mut enrolments, &mut rt.stdout())
}

fn replay<T: Read, E: Read, W: Write>(
    rt: &impl Eprint,
    told: Option<Stderr>,
    trace: &mut T,
    enrolments: &mut E,
    output: &mut W,
) -> ExitCode {
    let held = &mut [0; 65536];
    let out = &mut [0; 65536];
    let used = &mut [0u8; ROWS][..];
    let euis = &mut [0u64; ROWS][..];
    let shorts = &mut [0u16; ROWS][..];
    let lasts = &mut [0u32; ROWS][..];
    let heards = &mut [0u64; ROWS][..];
    let mut enrolling = Table {
        used: &mut *used,
        euis: &mut *euis,
        shorts: &mut *shorts,
        lasts: &mut *lasts,
        heards: &mut *heards,
    };
    match enrolments::enrol_all(enrolments, output, held, out, &mut enrolling) {
        Ok(true) => {}
        Ok(false) => return ExitCode::SUCCESS,
        Err(e) => return failed(rt, "enrolments", e),
    }
    let mut table = Table {
        used: &*used,
        euis: &*euis,
        shorts: &*shorts,
        lasts,
        heards,
    };
    match records::play_all(told, trace, output, held, out, &mut table) {
        Ok(()) => ExitCode::SUCCESS,
        Err(e) => failed(rt, "trace", e),
    }
}

// A line on standard error; where that can't be written to, the status alone tells.
fn failed(rt: &impl Eprint, input: &str, e: Failed) -> ExitCode {
    let _ = match e {
        Failed::Read(e) => eprintln!(rt; "replay: {input}: {e}"),
        Failed::Write(e) => eprintln!(rt; "replay: standard output: {e}"),
    };
    ExitCode::FAILURE
}
