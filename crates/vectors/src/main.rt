// Runs the public MessagePack vectors on standard input (vectors/README.md has the form of a line), and document 01's
// examples of limits. Prints a line for each wrong answer, and a summary.
#![tactic(auto)]

ghost use Rattle.std.specs.Prelude.{IfOk, ◌≤◌, length};

mod limits;
mod payload;
mod text;
mod vector;

use std::io;
use std::io::Read;
use vector::Tally;

// A read or a write that fails ends the run with its error.
fn main(rt: HostRuntime) -> io::Result<()> {
    let mut input = [0; 65536];
    let mut room = [0; 65536];
    let n = read_full(&mut rt.stdin(), &mut input)?;
    if n == input.len() {
        println!(rt; "the input is longer than the buffer")?;
    }
    let tally = vectors(&rt, &input[..n], &mut room)?;
    println!(rt;
        "{} vectors, {} cuts, {} numbers, {} wrong",
        tally.lines, tally.cuts, tally.numbers, tally.wrong
    )?;
    limits::run(&rt, &mut room)
}

// Reads until the buffer is full or the input ends, and returns how many bytes now stand at its start. A read takes as many bytes as it gets, so the loop
// ends by the input, and `for` has no count of turns to go by.
fn read_full<R: Read>(reader: &mut R, buf: &mut [u8]) -> io::Result<usize>
    ensures { IfOk result (λ n. n ≤ length buf.new) }
{
    let mut done = 0;
    while done < buf.len() {
        let n = reader.read(&mut buf[done..])?;
        if n == 0 {
            break;
        }
        done += n;
    }
    Ok(done)
}

// Every line of the input.
fn vectors(rt: &impl Print, input: &[u8], room: &mut [u8]) -> io::Result<Tally> {
    let mut tally = Tally::default();
    for line in input.split_inclusive(|b| *b == b'\n') {
        tally.line(rt, line.strip_suffix(b"\n").unwrap_or(line), room)?;
    }
    Ok(tally)
}
