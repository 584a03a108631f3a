// A recorded frame played through its station's session and the meter table, by the calls that a host makes with it.
#![tactic(auto)]

ghost use mathlib.Core.{Path.◌≡◌, List.List};
ghost use Rattle.std.specs.Prelude.{ℕ, ◌*◌, ◌<◌, length, is_ok};
ghost use Rattle.session.specs.Image.{session_size};
ghost use Rattle.meters.specs.Lent.{credited_in, StillCredits};
ghost use Rattle.play.specs.Play.{Played, played, before_arrival, replaying, arrival, credited, to_table, Plays};
ghost use Rattle.play.specs.Centre.{stations, centre, PlaysFrame};

use meters::{Credits, Kind};
use record::{Body, Message, UlData};

// The bytes of one session.
const SESSION: usize = 368;

// A reading that is new to the table.
#[derive(Clone, Copy, Debug, PartialEq, Eq)]
pub struct Credited {
    pub eui: u64,
    pub counter: u32,
}

// A payload that arrived from a station.
pub fn play(
    session: &mut [u8],
    table: &mut Credits,
    station: u64,
    payload: &[u8],
) -> Option<Credited>
    ensures plays { Plays replaying payload.now session.old (credited_in table.old) station
        (played session.new (credited_in table.new) result) }
    ensures lent { StillCredits table.old table.new }
{
    let mut lent = [0u8; 880];
    let Ok(counted) = reading::read(payload, &mut lent) else {
        return None;
    };
    let m = counted.message;
    let b = m.body;
    if !accepts(session, m, &lent) {
        return None; // and not to the table
    }
    to_table(table, station, b)
}

// A whole frame that arrived from a station; the sessions of all stations stand one behind the other.
#[tactic(auto, using(crate::proofs::Framing::frame_plays))]
pub fn play_frame(
    sessions: &mut [u8],
    table: &mut Credits,
    station: u64,
    frame: &[u8],
) -> Option<Credited>
    requires { (length sessions.old ≡ session_size * stations) × (station < stations) }
    ensures plays { PlaysFrame replaying (centre sessions.old (credited_in table.old)) station frame.now
        (centre sessions.new (credited_in table.new)) result }
    ensures lent { StillCredits table.old table.new }
{
    let a = SESSION * (station as usize);
    let e = a + SESSION;
    let payload = frame::payload(frame, frame.len());
    play(&mut sessions[a..e], table, station, payload)
}

// The connection is lost where a con arrives.
#[tactic(auto, using(crate::proofs::Arriving::before))]
fn before_arrival(session: &mut [u8], b: Body)
    ensures { session.new ≡ before_arrival b session.old }
{
    if record::command_in(b) == names::numbers::CON {
        // What is no session's stays, and is refused as the con arrives.
        let _ = steps::lose(session);
    }
}

// Whether the session accepts a message. The reply is thrown away.
fn accepts(session: &mut [u8], m: Message, lent: &[u8]) -> bool
    ensures session { session.new ≡ (arrival replaying session.old m lent.now).session }
    ensures accepted { result ≡ is_ok (arrival replaying session.old m lent.now).answer }
{
    let b = m.body;
    before_arrival(session, b);
    let uuid = [0u8; 16];
    let sign = [0u8; 4];
    let mut room = [0u8; 1909];
    steps::arrive(session, m, lent, 0, &uuid, &sign, &mut room).is_ok()
}

// An accepted message: a ulData goes to the table.
fn to_table(table: &mut Credits, station: u64, b: Body) -> Option<Credited>
    ensures table { (d : List ℕ) → ◌≡◌ {A = Played} (played d (credited_in table.new) result)
        (to_table d (credited_in table.old) station b) }
    ensures lent { StillCredits table.old table.new }
{
    match b {
        Body::UlData(x) => credit(table, station, x),
        _ => None,
    }
}

fn credit(table: &mut Credits, station: u64, x: UlData) -> Option<Credited>
    ensures table { (d : List ℕ) → ◌≡◌ {A = Played} (played d (credited_in table.new) result)
        (credited d (credited_in table.old) station x.packet.ep_eui x.packet.packet_cnt) }
    ensures lent { StillCredits table.old table.new }
{
    let eui = x.packet.ep_eui;
    let counter = x.packet.packet_cnt;
    let Ok(credit) = table.uplink(eui, counter, station) else {
        return None;
    };
    match credit.kind {
        Kind::New => Some(Credited { eui, counter }),
        Kind::Copy => None,
    }
}
