// Operations that the centre starts.
ghost use Rattle.std.specs.Prelude.{◌≡◌};
ghost use Rattle.record.specs.Record.{command_in};
ghost use Rattle.session.specs.{Place.free_place, Centre.begins, Centre.begin_at, Centre.kind_begins, Image.session_at};
ghost use Rattle.steps.specs.{Code.Lies.Lies, Code.Lies.started_by, Code.Lies.unnumbered, Called.Called, Called.called, Called.called_by};

use crate::places::free_place;
use crate::side::Side;
use crate::stored::take;
use crate::{Done, lies};
use names::numbers;
use record::{Body, Message};
use refusal::Refusal;
use session::Happened;

// Below it there is none to issue.
const LEAST_ID: i64 = -0x8000_0000_0000_0000;

// The centre starts ping, status, attPrp, detPrp, dlDataQue.
#[tactic(auto, using(crate::proofs::Issuing::issues))]
pub fn begins(d: &mut [u8], b: Body, lent: &[u8], room: &mut [u8]) -> Result<Done, Refusal>
    requires { Lies d.old }
    ensures { ◌≡◌ {A = Called} (called result d.new room.new)
        (called_by d.old room.old (kind_begins (session_at d.old) (command_in b) (unnumbered b) lent.now)) }
{
    let command = record::command_in(b);
    if (command != numbers::PING)
        & (command != numbers::STATUS)
        & (command != numbers::ATT_PRP)
        & (command != numbers::DET_PRP)
        & (command != numbers::DL_DATA_QUE)
    {
        return Err(Refusal::State);
    }
    issues(d, command, b, lent, room)
}

// One below the last, down to the least that there is (18).
fn issues(d: &mut [u8], start: u8, b: Body, lent: &[u8], room: &mut [u8]) -> Result<Done, Refusal>
    requires { Lies d.old }
    ensures { ◌≡◌ {A = Called} (called result d.new room.new)
        (called_by d.old room.old (begins (session_at d.old) (started_by start 0) (unnumbered b) lent.now)) }
{
    let lowest = lies::lowest_of(d);
    if lowest == LEAST_ID {
        return Err(Refusal::IdOutOfOrder);
    }
    let m = Message {
        op_id: lowest - 1,
        body: b,
    };
    issue(d, start, m, lent, room)
}

// A record under the ID issued, for a free place (19); a bad record is 15.
fn issue(d: &mut [u8], start: u8, m: Message, lent: &[u8], room: &mut [u8]) -> Result<Done, Refusal>
    requires { Lies d.old }
    ensures { ◌≡◌ {A = Called} (called result d.new room.new)
        (called_by d.old room.old (begin_at (session_at d.old) (started_by start 0) m.op_id m lent.now (free_place (session_at d.old).centre))) }
{
    let Some(i) = free_place(d, Side::Centre) else {
        return Err(Refusal::SixteenOpen);
    };
    if faults::fault(m, lent) != 0 {
        return Err(Refusal::Invalid);
    }
    let id = m.op_id;
    let length = writer::put(m, lent, room)?;
    take(d, Side::Centre, i, id, start);
    Ok(Done {
        happened: Happened::Issued,
        length,
    })
}
