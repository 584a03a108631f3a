// Document 01's examples of limits: sizes and counts on both sides, and a length that is not to be trusted.
use crate::payload::{START, VALUE, holds, refuses};
use refusal::Refusal;
use std::io;

// How many limits were tried, and how many answers were wrong.
#[derive(Clone, Copy, Default)]
struct Count {
    tried: u64,
    wrong: u64,
}

pub fn run(rt: &impl Print, room: &mut [u8; 65536]) -> io::Result<()> {
    let mut count = Count::default();
    count.payloads(rt, room)?;
    count.elements(rt, room)?;
    count.promise(rt, room)?;
    count.frames(rt, room)?;
    println!(rt; "{} limits, {} wrong", count.tried, count.wrong)
}

// P with a value of n zeros behind a lead byte and its length in so many bytes.
fn filled(room: &mut [u8; 65536], lead: u8, width: usize, n: u64) {
    room.fill(0);
    room[..VALUE].copy_from_slice(&START);
    room[VALUE] = lead;
    octets::put_big(room, VALUE + 1, width, n);
}

// A frame with a payload of n bytes.
fn framed(room: &mut [u8; 65536], n: u64) -> Result<usize, Refusal> {
    room[..8].copy_from_slice(b"MIOTYB01");
    octets::put_little(room, 8, 4, n);
    frame::read(room)
}

impl Count {
    fn judge(&mut self, rt: &impl Print, right: bool, limit: &str) -> io::Result<()> {
        self.tried = self.tried.saturating_add(1);
        if right {
            return Ok(());
        }
        self.wrong = self.wrong.saturating_add(1);
        println!(rt; "wrong: {limit}")
    }

    // A bin that fills the payload.
    fn payloads(&mut self, rt: &impl Print, room: &mut [u8; 65536]) -> io::Result<()> {
        filled(room, 0xC5, 2, 4096 - 25);
        let whole = holds(&room[..4096], 7);
        self.judge(rt, whole, "payload of 4,096 bytes: 7 elements")?;
        filled(room, 0xC5, 2, 4097 - 25);
        let refused = refuses(&room[..4097], Refusal::Size, 0);
        self.judge(rt, refused, "payload of 4,097 bytes: refusal 3")
    }

    // An array of zeros that makes up the count.
    fn elements(&mut self, rt: &impl Print, room: &mut [u8; 65536]) -> io::Result<()> {
        filled(room, 0xDC, 2, 1024 - 7);
        let whole = holds(&room[..1042], 1024);
        self.judge(rt, whole, "1,024 elements: whole")?;
        filled(room, 0xDC, 2, 1025 - 7);
        let refused = refuses(&room[..1043], Refusal::TooManyElements, 1042);
        self.judge(rt, refused, "1,025 elements: refusal 7 at the last")
    }

    // An array that states more parts than any payload has.
    fn promise(&mut self, rt: &impl Print, room: &mut [u8; 65536]) -> io::Result<()> {
        filled(room, 0xDD, 4, 0xFFFF_FFFF);
        let cut = refuses(&room[..27], Refusal::Cut, 27);
        self.judge(
            rt,
            cut,
            "array of 2^32-1 parts in five bytes: refusal 4 behind them",
        )
    }

    fn frames(&mut self, rt: &impl Print, room: &mut [u8; 65536]) -> io::Result<()> {
        let whole = framed(room, 4096) == Ok(4096);
        self.judge(rt, whole, "frame of size 4,096: whole")?;
        let refused = framed(room, 4097) == Err(Refusal::Size);
        self.judge(rt, refused, "frame of size 4,097: refusal 3")
    }
}
