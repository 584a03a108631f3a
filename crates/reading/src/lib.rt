// One payload, read: the walk and the places of its values, then its command, its fields and its record.
#![tactic(auto)]

ghost use Rattle.std.specs.Prelude.{◌≡◌, ◌/◌, ◌≤◌, length, take, Err};
ghost use Rattle.octets.specs.Bytes.{put_at};
ghost use Rattle.record.specs.{Reading.refusal_of, Meant.Answered, Meant.lent_size, Meant.Meant};
ghost use Rattle.reading.specs.Framed.{MeantFramed};
ghost use Rattle.reading.specs.Code.Ways.{Enters, lent_after, fields_by, named_by, stepped_by};

use element::Next;
use names::slots;
use notes::Noted;
use record::{Body, Counted};
use refusal::{Broken, Refusal};

// So many lent bytes are enough for every message's; and so many for ulData's.
const LENT_SIZE: usize = 880;

const USER_SIZE: usize = 245;

// What was read at the start of an input, and how many bytes of it: a frame's, or 0 where there is no whole frame.
#[derive(Clone, Copy)]
pub struct Unframed {
    pub used: usize,
    pub told: Result<Counted, Broken>,
}

// A payload: any bytes, also none. The message's long bytes are put at the start of d; a payload that is refused leaves it.
#[tactic(auto, using(crate::proofs::Answers::reads))]
pub fn read(s: &[u8], d: &mut [u8]) -> Result<Counted, Broken>
    ensures { Meant s.now d.old (record { told = result; lent = d.new }) }
{
    if d.len() < LENT_SIZE {
        return refused(Refusal::Invalid);
    }
    let Noted { step, places } = notes::outer(s);
    stepped(s, step, &places, d)
}

// A frame at the start of the bytes that arrived.
#[tactic(auto, using(crate::proofs::Answers::reads))]
pub fn read_framed(s: &[u8], d: &mut [u8]) -> Unframed
    ensures { MeantFramed s.now d.old result d.new }
{
    match frame::read(s) {
        Err(refusal) => Unframed {
            used: 0,
            told: refused(refusal),
        },
        Ok(size) => Unframed {
            used: frame::HEAD + size,
            told: read(frame::payload(s, size), d),
        },
    }
}

// No place of a byte belongs to it.
fn refused(refusal: Refusal) -> Result<Counted, Broken>
    ensures { result ≡ Err (record { refusal = refusal; place = 0 }) }
{
    Err(Broken { refusal, place: 0 })
}

// By the walk's answer: a break, or bytes that are left over.
#[tactic(auto, using(crate::proofs::Answers::ways))]
fn stepped(
    s: &[u8],
    step: Result<Next, Broken>,
    places: &[u16; 64],
    d: &mut [u8],
) -> Result<Counted, Broken>
    requires { lent_size ≤ length d.old }
    ensures { ◌≡◌ {A = Answered} (record { told = result; lent = d.new }) (stepped_by s.now places.now d.old step) }
{
    let Next { at, count } = step?;
    if at < s.len() {
        return Err(Broken {
            refusal: Refusal::LeftOver,
            place: at,
        });
    }
    named(s, places, count, d)
}

// By the command's text: one that is not among the 24, or no one text.
#[tactic(auto, using(crate::proofs::Answers::ways))]
fn named(s: &[u8], places: &[u16; 64], count: usize, d: &mut [u8]) -> Result<Counted, Broken>
    requires { lent_size ≤ length d.old }
    ensures { ◌≡◌ {A = Answered} (record { told = result; lent = d.new }) (named_by s.now places.now count d.old) }
{
    match notes::command_at(s, places[slots::COMMAND]) {
        Ok(command) => fields(s, places, command, count, d),
        Err(refusal) => refused(refusal),
    }
}

// The fields of a command that we know: the record, if none has a fault.
fn fields(
    s: &[u8],
    places: &[u16; 64],
    command: u8,
    count: usize,
    d: &mut [u8],
) -> Result<Counted, Broken>
    requires { lent_size ≤ length d.old }
    ensures { ◌≡◌ {A = Answered} (record { told = result; lent = d.new }) (fields_by s.now places.now command count d.old) }
{
    let mut user = [0u8; USER_SIZE];
    let g = bodies::read(s, places, command, &mut user);
    if g.worst != 0 {
        return refused(refusal_of(g.worst));
    }
    let message = g.message;
    let b = message.body;
    lend(s, places, b, &user, d);
    Ok(Counted { count, message })
}

// The long bytes of a record, at the start of d: those of ulData were read into a room, those of statusRsp and of dlDataQue stand where their fields are.
fn lend(s: &[u8], places: &[u16; 64], b: Body, user: &[u8; 245], d: &mut [u8])
    requires { Enters s.now places.now b × (lent_size ≤ length d.old) }
    ensures { d.new ≡ lent_after s.now places.now b user.now d.old }
{
    match b {
        Body::Con(_) => {}
        Body::ConRsp(_) => {}
        Body::StatusRsp(_) => field::text_into(s, usize::from(places[slots::MESSAGE]), d),
        Body::Det(_) => {}
        Body::DetRsp(_) => {}
        Body::AttPrp(_) => {}
        Body::DetPrp(_) => {}
        Body::UlData(x) => put_first(user, x.user_len, d),
        Body::DlDataQue(x) => field::downlink_into(
            s,
            usize::from(places[slots::PACKET_CNT]),
            usize::from(places[slots::USER_DATA]),
            usize::from(x.entries),
            d,
        ),
        Body::Bare(_) => {}
    }
}

// The first n of the room's bytes.
fn put_first(user: &[u8], n: u8, d: &mut [u8])
    ensures { d.new ≡ put_at d.old 0 (take n user.now) }
{
    let n = usize::from(n).min(user.len());
    forms::put_run(d, 0, &user[..n]);
}

// What a gravest fault is refused by.
fn refusal_of(worst: u16) -> Refusal
    ensures { result ≡ refusal_of (worst / 64) }
{
    match worst / bodies::RANK {
        0 | 1 => Refusal::Invalid,
        2 => Refusal::FieldMissing,
        _ => Refusal::KeyTwice,
    }
}
