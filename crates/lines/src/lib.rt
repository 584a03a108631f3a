// What the program prints of the frames that arrive, turn by turn.
#![tactic(auto)]

mod text;

ghost use mathlib.Core.{Path.◌≡◌, Bool.◌&&◌, Bool.not, List.[], List.◌∷◌};
ghost use Rattle.std.specs.Prelude.{eqb};
ghost use Rattle.forms.specs.Code.Put.{Put, put, put_parts};
ghost use Rattle.record.specs.Meant.{refusal_told};
ghost use Rattle.lines.specs.{Lines.line_of, Lines.end_line, Lines.stop_lines, Turn.printed_refused, Turn.Shows, Turn.Turned};

use reading::Unframed;
use record::Counted;
use refusal::Broken;
pub use text::put_counted;

// How many of the bytes at hand are used, how many of the room's are to be printed, and whether they are the last.
#[derive(Clone, Copy)]
pub struct Took {
    pub used: usize,
    pub length: usize,
    pub ended: bool,
}

// The bytes at hand from the start of the next frame on, of which no more will come where they are the last, and the frame's number. What is
// printed has at most 78 bytes; where it has no room it is left out.
pub fn turn(bytes: &[u8], last: bool, number: u64, room: &mut [u8]) -> Took
    ensures { Turned bytes.now last number room.old room.new result }
{
    let mut lent = [0u8; 880];
    let Unframed { used, told } = reading::read_framed(bytes, &mut lent);
    if used == 0 {
        return refused(room, last, number, bytes.len(), number_in(told));
    }
    Took {
        used,
        length: line(room, number, told),
        ended: false,
    }
}

// Document 01's number of a refusal, 0 of a record.
fn number_in(told: Result<Counted, Broken>) -> u8
    ensures { result ≡ refusal_told told }
{
    match told {
        Ok(_) => 0,
        Err(broken) => broken.refusal.number(),
    }
}

// No whole frame: more bytes are waited for, or none is left, or the frame is refused.
fn refused(room: &mut [u8], last: bool, number: u64, len: usize, refusal: u8) -> Took
    ensures { Shows (printed_refused last number len refusal) room.old room.new result }
{
    if waits(refusal, last) {
        return Took {
            used: 0,
            length: 0,
            ended: false,
        };
    }
    let length = if len == 0 {
        end(room, number)
    } else {
        stop(room, number, refusal)
    };
    Took {
        used: 0,
        length,
        ended: true,
    }
}

fn waits(refusal: u8, last: bool) -> bool
    ensures { result ≡ eqb refusal 1 && not last }
{
    refusal == 1 && !last
}

// The line of a whole frame at the start of the room.
fn line(room: &mut [u8], number: u64, told: Result<Counted, Broken>) -> usize
    ensures { ◌≡◌ {A = Put} (put room.new result) (put_parts (line_of number told ∷ []) (put room.old 0)) }
{
    let mut text = [0u8; 80];
    let n = text::put_line(&mut text, number, told);
    forms::put_run(room, 0, &text[..n])
}

fn end(room: &mut [u8], number: u64) -> usize
    ensures { ◌≡◌ {A = Put} (put room.new result) (put_parts (end_line number ∷ []) (put room.old 0)) }
{
    let mut text = [0u8; 80];
    let n = text::put_counted(&mut text, 0, b"frames ", number);
    forms::put_run(room, 0, &text[..n])
}

fn stop(room: &mut [u8], number: u64, refusal: u8) -> usize
    ensures { ◌≡◌ {A = Put} (put room.new result) (put_parts (stop_lines number refusal ∷ []) (put room.old 0)) }
{
    let mut text = [0u8; 80];
    let n = text::put_stop(&mut text, number, refusal);
    forms::put_run(room, 0, &text[..n])
}
