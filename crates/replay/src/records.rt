// The trace, one turn after another: its start, then record by record.
use hand::{Failed, Hand};
use lines::Took;
use meters::Credits;
use std::io::{Read, Stderr, Write};

// The sessions of 64 stations.
const SESSIONS: usize = 23552;

// The sum of the gaps since the trace's first number, none before it, and the count of records.
#[derive(Clone, Copy)]
struct Played {
    sum: Option<u64>,
    records: u64,
}

// The whole trace. A proved loop has to end, so it counts up to a number that no run reaches.
pub fn play_all<R: Read, W: Write>(
    told: Option<Stderr>,
    trace: &mut R,
    output: &mut W,
    held: &mut [u8],
    out: &mut [u8],
    table: &mut Credits,
) -> Result<(), Failed> {
    let sessions = &mut [0; SESSIONS];
    let mut hand = Hand::empty();
    let mut played = Played {
        sum: None,
        records: 0,
    };
    for turn in 0..u64::MAX {
        if hand.ended {
            break;
        }
        let took = play(held, out, hand, sessions, table, &mut played);
        hand.turned(trace, output, held, out, took)?;
        crate::progress::tell(told, turn, played.records);
    }
    hand.flushed(output, out)
}

// One turn over the bytes at hand: the start of the trace, then record by record.
fn play(
    held: &[u8],
    out: &mut [u8],
    hand: Hand,
    sessions: &mut [u8; SESSIONS],
    table: &mut Credits,
    played: &mut Played,
) -> Took {
    let bytes = hand::part(held, hand.from, hand.to);
    let filled = hand.filled.min(out.len());
    let room = &mut out[filled..];
    let Some(mut sum) = played.sum else {
        let took = day::start(bytes, hand.last, room);
        if took.used != 0 {
            played.sum = Some(0);
        }
        return took;
    };
    let took = day::turn(bytes, hand.last, &mut sum, sessions, table, room);
    played.sum = Some(sum);
    if took.used != 0 {
        // There is no trace of 2^64 records.
        played.records = played.records.saturating_add(1);
    }
    took
}
