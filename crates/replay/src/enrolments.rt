// The enrolments, one turn after another.
use hand::{Failed, Hand};
use lines::Took;
use meters::Enrols;
use std::io::{Read, Write};

// All enrolments; whether none was refused: they end there, and nothing is printed. A proved loop has to end, so it counts up to a number that no run reaches.
pub fn enrol_all<R: Read, W: Write>(
    enrolments: &mut R,
    output: &mut W,
    held: &mut [u8],
    out: &mut [u8],
    table: &mut Enrols,
) -> Result<bool, Failed> {
    let mut hand = Hand::empty();
    let mut complete = false;
    for _ in 0..u64::MAX {
        if hand.ended {
            break;
        }
        let took = enrol(held, out, hand, table);
        complete = took.ended & (took.length == 0);
        hand.turned(enrolments, output, held, out, took)?;
    }
    hand.flushed(output, out)?;
    Ok(complete)
}

// One turn over the bytes at hand.
fn enrol(held: &[u8], out: &mut [u8], hand: Hand, table: &mut Enrols) -> Took {
    let bytes = hand::part(held, hand.from, hand.to);
    let filled = hand.filled.min(out.len());
    day::enrol(bytes, hand.last, table, &mut out[filled..])
}
