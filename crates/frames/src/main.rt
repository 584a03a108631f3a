// Reads frames from standard input and prints a line for each (document 01, "Program"). What is printed stands in `lines::turn`; here turns follow one
// another. A read or a write that fails ends the run without the last line.
#![tactic(auto)]

use hand::{Failed, Hand};
use lines::Took;
use std::io::{Read, Write};
use std::process::ExitCode;

fn main(rt: HostRuntime) -> ExitCode {
    match frames(&mut rt.stdin(), &mut rt.stdout()) {
        Ok(()) => ExitCode::SUCCESS,
        Err(e) => failed(&rt, e),
    }
}

// A line on standard error; where that can't be written to, the status alone tells.
fn failed(rt: &impl Eprint, e: Failed) -> ExitCode {
    let _ = match e {
        Failed::Read(e) => eprintln!(rt; "frames: standard input: {e}"),
        Failed::Write(e) => eprintln!(rt; "frames: standard output: {e}"),
    };
    ExitCode::FAILURE
}

// A proved loop has to end, so it counts up to a number that no run reaches; there is no input of 2^64 frames.
fn frames<R: Read, W: Write>(input: &mut R, output: &mut W) -> Result<(), Failed> {
    let mut held = [0; 65536];
    let mut out = [0; 65536];
    let mut hand = Hand::empty();
    let mut number: u64 = 0;
    for _ in 0..u64::MAX {
        if hand.ended {
            break;
        }
        let took = turn(&held, &mut out, hand, number);
        if took.used != 0 {
            number = number.saturating_add(1);
        }
        hand.turned(input, output, &mut held, &out, took)?;
    }
    hand.flushed(output, &out)
}

// One turn over the bytes at hand.
fn turn(held: &[u8], out: &mut [u8], hand: Hand, number: u64) -> Took {
    let bytes = hand::part(held, hand.from, hand.to);
    let filled = hand.filled.min(out.len());
    lines::turn(bytes, hand.last, number, &mut out[filled..])
}
