// What the program makes of a recorded day, turn by turn: enrolments, the start of a trace, its records. Each turn is handed the bytes at hand and told
// whether they are the last.
#![tactic(auto)]

mod text;

ghost use mathlib.Core.{Path.◌≡◌, Bool.false, List.[], List.◌∷◌};
ghost use Rattle.std.specs.Prelude.{◌≤◌, ◌==◌, length};
ghost use Rattle.refusal.specs.Number.{number_of};
ghost use Rattle.refusal.specs.declared.Refusal.TheVariants.{InputEnds};
ghost use Rattle.octets.specs.Number.{big_at};
ghost use Rattle.forms.specs.Code.Put.{Put, put, put_parts};
ghost use Rattle.meters.specs.{Columns.Columns, Lent.enrolled_in, Lent.credited_in, Lent.StillEnrols, Lent.StillCredits};
ghost use Rattle.play.specs.Centre.{Centre, centre};
ghost use Rattle.lines.specs.Turn.{Shows};
ghost use Rattle.day.specs.{Lines.reading_line, Lines.line_of, Lines.refused_line, Turn.stops, Turn.refuses, Turn.refuses_between, Turn.shown_by, Enrolments.enrol_turn, Code.Meter.enrol_meter, Day.start_turn, Day.Turned};

use lines::Took;
use meters::{Credits, Enrols};
use play::Credited;
use refusal::Refusal;

// The bytes of an enrolment, and where its parts begin.
const ENROLMENT: usize = 14;

const SHORT: usize = 8;

const COUNTER: usize = 10;

// The bytes of 64 sessions.
const SESSIONS: usize = 23552;

// What an enrolment says of a meter.
#[derive(Clone, Copy)]
pub struct Enrolment {
    pub eui: u64,
    pub short: u16,
    pub counter: u32,
}

// One enrolment; 33, 22, 23.
pub fn enrol(bytes: &[u8], last: bool, table: &mut Enrols, room: &mut [u8]) -> Took
    ensures shows { Shows (shown_by (enrol_turn last (enrolled_in table.old) bytes.now))
        room.old room.new result }
    ensures table { ◌≡◌ {A = Columns} (enrolled_in table.new)
        (enrol_turn last (enrolled_in table.old) bytes.now).state }
    ensures lent { StillEnrols table.old table.new }
{
    if bytes.len() < ENROLMENT {
        return between(room, bytes.len(), last, Refusal::InputEnds);
    }
    let e = enrolment_of(bytes);
    enrol_meter(table, e, room)
}

// The enrolment at the start of the bytes.
fn enrolment_of(bytes: &[u8]) -> Enrolment
    requires { 14 ≤ length bytes.now }
    ensures { result ≡ record { eui = big_at bytes.now 0 8; short = big_at bytes.now 8 2; counter = big_at bytes.now 10 4 } }
{
    Enrolment {
        eui: octets::big_at(bytes, 0, 8),
        short: octets::big_at(bytes, SHORT, 2) as u16,
        counter: octets::big_at(bytes, COUNTER, 4) as u32,
    }
}

fn enrol_meter(table: &mut Enrols, e: Enrolment, room: &mut [u8]) -> Took
    ensures shows { Shows (shown_by (enrol_meter (enrolled_in table.old) e.eui e.short e.counter))
        room.old room.new result }
    ensures table { ◌≡◌ {A = Columns} (enrolled_in table.new)
        (enrol_meter (enrolled_in table.old) e.eui e.short e.counter).state }
    ensures lent { StillEnrols table.old table.new }
{
    match table.enrol(e.eui, e.short, e.counter) {
        Ok(_) => passed(ENROLMENT, 0),
        Err(r) => stopped(room, r),
    }
}

// The start of a trace; 33, 32, 31.
pub fn start(bytes: &[u8], last: bool, room: &mut [u8]) -> Took
    ensures { (x : Centre) → Shows (shown_by (start_turn last x bytes.now)) room.old room.new result }
{
    match trace::start(bytes) {
        Ok(n) => passed(n.next, 0),
        Err(r) => refused(room, last, r),
    }
}

// One record, behind gaps of this sum, to which its own is added.
#[tactic(auto, using(crate::proofs::Recording::recording, trace::proofs::Entries::entries))]
pub fn turn(
    bytes: &[u8],
    last: bool,
    sum: &mut u64,
    sessions: &mut [u8; SESSIONS],
    table: &mut Credits,
    room: &mut [u8],
) -> Took
    ensures turned { Turned (centre sessions.old (credited_in table.old))
        last sum.old bytes.now room.old
        (centre sessions.new (credited_in table.new))
        sum.new room.new result }
    ensures lent { StillCredits table.old table.new }
{
    let e = match trace::read(bytes, *sum) {
        Ok(e) => e,
        Err(r) => return between(room, bytes.len(), last, r),
    };
    let from = e.from;
    let end = from + e.size;
    let reading = play::play_frame(sessions, table, e.station, &bytes[from..end]);
    *sum = *sum + e.gap;
    let length = line(room, e.station, reading);
    passed(end, length)
}

// No whole enrolment or record: the input ends here, or it does not go on as it must.
fn between(room: &mut [u8], len: usize, last: bool, refusal: Refusal) -> Took
    ensures { Shows (refuses_between last len refusal) room.old room.new result }
{
    if (len == 0) & last {
        return Took {
            used: 0,
            length: 0,
            ended: true,
        };
    }
    refused(room, last, refusal)
}

// More is waited for, or the refusal is printed.
fn refused(room: &mut [u8], last: bool, refusal: Refusal) -> Took
    ensures { Shows (refuses last refusal) room.old room.new result }
{
    if is_end(refusal) & !last {
        return passed(0, 0);
    }
    stopped(room, refusal)
}

// Whether the input ends inside what is read.
fn is_end(refusal: Refusal) -> bool
    ensures { result ≡ (number_of refusal == number_of InputEnds) }
{
    refusal == Refusal::InputEnds
}

fn passed(used: usize, length: usize) -> Took
    ensures { result ≡ record { used = used; length = length; ended = false } }
{
    Took {
        used: used,
        length: length,
        ended: false,
    }
}

fn stopped(room: &mut [u8], refusal: Refusal) -> Took
    ensures { Shows (stops (number_of refusal)) room.old room.new result }
{
    let length = stop(room, refusal);
    Took {
        used: 0,
        length: length,
        ended: true,
    }
}

// A reading that is new is a line.
fn line(room: &mut [u8], station: u64, reading: Option<Credited>) -> usize
    ensures { ◌≡◌ {A = Put} (put room.new result) (put_parts (line_of station reading ∷ []) (put room.old 0)) }
{
    match reading {
        Some(r) => new_line(room, station, r.eui, u64::from(r.counter)),
        None => 0,
    }
}

// A line is made in a room of its own and put into the lent one where it has place.
fn new_line(room: &mut [u8], station: u64, eui: u64, counter: u64) -> usize
    ensures { ◌≡◌ {A = Put} (put room.new result) (put_parts (reading_line station eui counter ∷ []) (put room.old 0)) }
{
    let mut text = [0u8; 80];
    let n = text::put_reading(&mut text, station, eui, counter);
    forms::put_run(room, 0, &text[..n])
}

fn stop(room: &mut [u8], refusal: Refusal) -> usize
    ensures { ◌≡◌ {A = Put} (put room.new result) (put_parts (refused_line (number_of refusal) ∷ []) (put room.old 0)) }
{
    let mut text = [0u8; 80];
    let n = lines::put_counted(&mut text, 0, b"refused ", u64::from(refusal.number()));
    forms::put_run(room, 0, &text[..n])
}
