// The meter table: five columns lent by the caller, one row a meter. Meters are told apart by their long address (EUI) alone.
#![tactic(auto)]

ghost use Rattle.std.specs.Prelude.{◌≡◌, ◌<◌};
ghost use Rattle.meters.specs.Rows.{hear_of};

mod table;

use refusal::Refusal;
pub use table::{Credits, Enrols, Finds, Table, Withdraws};

// A row's values. `used` is 0 for a free row; bit s of `heard` is station s.
#[derive(Clone, Copy)]
pub struct Row {
    pub used: u8,
    pub eui: u64,
    pub short: u16,
    pub last: u32,
    pub heard: u64,
}

#[derive(Clone, Copy, Debug, PartialEq, Eq)]
pub enum Kind {
    New,
    Copy,
}

// A new packet or a copy, with the number of stations that heard it so far and the meter's row.
#[derive(Clone, Copy, Debug, PartialEq, Eq)]
pub struct Credit {
    pub kind: Kind,
    pub hearers: u32,
    pub row: usize,
}

// What an uplink makes of a row, and its answer.
#[derive(Clone, Copy)]
pub struct Heard {
    pub row: Row,
    pub answer: Result<Credit, Refusal>,
}

// What the packet with this counter, heard by this station, makes of the meter's row, which is row i.
#[tactic(auto, using(crate::proofs::Laws::steps))]
fn hear(i: usize, row: Row, counter: u32, station: u64) -> Heard
    requires { station < 64 }
    ensures { result ≡ hear_of i row counter station }
{
    let bit = 1u64 << station;
    let mut next = row;
    if row.last < counter {
        next.last = counter;
        next.heard = bit;
        return Heard {
            row: next,
            answer: Ok(Credit {
                kind: Kind::New,
                hearers: 1,
                row: i,
            }),
        };
    }
    if (counter == row.last) & (row.heard != 0) {
        let heard = row.heard | bit;
        next.heard = heard;
        return Heard {
            row: next,
            answer: Ok(Credit {
                kind: Kind::Copy,
                hearers: heard.count_ones(),
                row: i,
            }),
        };
    }
    Heard {
        row,
        answer: Err(Refusal::Stale),
    }
}
