// The calls of a session, stepped where it lies: in the bytes that the host lends. A step reads what it looks at, writes its reply into the lent room
// if it has one, and stores what it changes only then, so that 20 is last and no step.
#![tactic(auto)]

mod bytes;
mod connect;
mod issue;
mod lies;
mod operate;
mod places;
mod reply;
mod side;
mod stored;

ghost use Rattle.std.specs.Prelude.{◌≡◌, length};
ghost use Rattle.session.specs.{Arrive.in_state, Image.session_at};
ghost use Rattle.steps.specs.Code.Lies.{Lies};
ghost use Rattle.steps.specs.Called.{Called, called, called_by, host_of, arrive_on, begin_on, lost_answer, lost_session};

use bytes::four_of;
use record::Message;
use refusal::Refusal;
use session::Happened;

// A step that was taken: what happened, and how many bytes stand in the room.
#[derive(Clone, Copy, Debug, PartialEq, Eq)]
pub struct Done {
    pub happened: Happened,
    pub length: usize,
}

// A record arrives with the bytes lent beside it, and with what the host lends for the reply: its scEui, a new UUID of 16 bytes, a sign of 4. 15, then 17, 18, 19 (waiting: 17, 18,
// 16), 20 last. A refused step changes neither the session nor the room.
pub fn arrive(
    d: &mut [u8],
    m: Message,
    lent: &[u8],
    sc_eui: u64,
    uuid: &[u8],
    sign: &[u8],
    room: &mut [u8],
) -> Result<Done, Refusal>
    ensures { ◌≡◌ {A = Called} (called result d.new room.new) (arrive_on d.old m lent.now sc_eui uuid.now sign.now room.old) }
{
    if !lies::is_session(d) {
        return Err(Refusal::Invalid);
    }
    if (uuid.len() != 16) | (sign.len() != 4) {
        return Err(Refusal::Invalid);
    }
    if faults::fault(m, lent) != 0 {
        return Err(Refusal::Invalid);
    }
    in_state(d, m, sc_eui, uuid, sign, room)
}

fn in_state(
    d: &mut [u8],
    m: Message,
    sc_eui: u64,
    uuid: &[u8],
    sign: &[u8],
    room: &mut [u8],
) -> Result<Done, Refusal>
    requires { Lies d.old × (length uuid.now ≡ 16) × (length sign.now ≡ 4) }
    ensures { ◌≡◌ {A = Called} (called result d.new room.new)
        (called_by d.old room.old (in_state (session_at d.old).state (session_at d.old) m (host_of sc_eui uuid.now sign.now))) }
{
    let state = d[lies::STATE];
    if state == lies::WAITING {
        return connect::in_waiting(d, m, sc_eui, uuid, room);
    }
    let id = m.op_id;
    let b = m.body;
    let command = record::command_in(b);
    if state == lies::OPEN {
        return operate::in_open(d, four_of(sign), command, id, room);
    }
    connect::in_connecting(d, command, id)
}

// The centre starts an operation with this record, under the ID that it issues; 15 for bytes that are no session's, 17, 18, 19, 15, 20.
pub fn begin(d: &mut [u8], m: Message, lent: &[u8], room: &mut [u8]) -> Result<Done, Refusal>
    ensures { ◌≡◌ {A = Called} (called result d.new room.new) (begin_on d.old m lent.now room.old) }
{
    if !lies::is_session(d) {
        return Err(Refusal::Invalid);
    }
    if d[lies::STATE] != lies::OPEN {
        return Err(Refusal::State);
    }
    let b = m.body;
    issue::begins(d, b, lent, room)
}

// The connection is lost: a session that was connecting or open is stored and waits; 15.
pub fn lose(d: &mut [u8]) -> Result<Done, Refusal>
    ensures { (result ≡ lost_answer d.old) × (d.new ≡ lost_session d.old) }
{
    if !lies::is_session(d) {
        return Err(Refusal::Invalid);
    }
    if d[lies::STATE] == lies::WAITING {
        return Ok(Done {
            happened: Happened::Nothing,
            length: 0,
        });
    }
    d[lies::STATE] = lies::WAITING;
    d[lies::STORED] = 1;
    Ok(Done {
        happened: Happened::Stored,
        length: 0,
    })
}
