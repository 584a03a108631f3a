// Waiting and connecting: con, and the conCmp that opens.
ghost use mathlib.Core.{Path.◌≡◌, List.List, List.[]};
ghost use Rattle.std.specs.Prelude.{true, false, not, ◌||◌, ℕ, length};
ghost use Rattle.record.specs.Record.{sixteen_of};
ghost use Rattle.session.specs.Arrive.{Outcome, is_below, highest_of, lowest_of, con_rsp_with, resumes, resumed, begun, takes_con, in_waiting, in_connecting};
ghost use Rattle.session.specs.{Image.session_at, declared.Happened.TheVariants.Begun, declared.Happened.TheVariants.Resumed};
ghost use Rattle.steps.specs.Code.Lies.{Lies};
ghost use Rattle.steps.specs.Called.{Called, called, called_by, host_of};

use crate::bytes::{same_sixteen, sixteen_at};
use crate::reply::con_rsp;
use crate::stored::begin_anew;
use crate::{Done, lies};
use message::Maybe;
use record::{Body, Con, Message};
use refusal::Refusal;
use session::Happened;

// Waiting takes only con (17).
pub fn in_waiting(
    d: &mut [u8],
    m: Message,
    sc_eui: u64,
    uuid: &[u8],
    room: &mut [u8],
) -> Result<Done, Refusal>
    requires { Lies d.old × (length uuid.now ≡ 16) }
    ensures { ◌≡◌ {A = Called} (called result d.new room.new)
        (called_by d.old room.old (in_waiting (session_at d.old) m (host_of sc_eui uuid.now []))) }
{
    let id = m.op_id;
    let b = m.body;
    match b {
        Body::Con(x) => takes_con(d, id, x, sc_eui, uuid, room),
        _ => Err(Refusal::State),
    }
}

// A con: 18 (opId must be 0), 16.
fn takes_con(
    d: &mut [u8],
    id: i64,
    x: Con,
    sc_eui: u64,
    uuid: &[u8],
    room: &mut [u8],
) -> Result<Done, Refusal>
    requires { Lies d.old × (length uuid.now ≡ 16) }
    ensures { ◌≡◌ {A = Called} (called result d.new room.new)
        (called_by d.old room.old (takes_con (session_at d.old) id x (host_of sc_eui uuid.now []))) }
{
    if id != 0 {
        return Err(Refusal::IdOutOfOrder);
    }
    if (x.version.value.major != 1) | (x.version.value.minor != 0) {
        return Err(Refusal::Version);
    }
    if resumes(d, x) {
        return resume(d, sc_eui, room);
    }
    anew(d, x, sc_eui, uuid, room)
}

// It resumes exactly if a session is stored with the same bsEui and snBsUuid, and no ID that it does not know.
#[tactic(auto, using(crate::proofs::Knowing::resumes_is, crate::proofs::Storing::long))]
fn resumes(d: &[u8], x: Con) -> bool
    requires { Lies d.now }
    ensures { result ≡ resumes (session_at d.now) x }
{
    let uuid = x.sn_bs_uuid;
    let station = x.sn_bs_op_id;
    let centre = x.sn_sc_op_id;
    (d[lies::STORED] != 0)
        & (octets::little_at(d, 0, 8) == x.bs_eui)
        & same_sixteen(d, lies::BS_UUID, uuid)
        & station_known(d, station)
        & centre_known(d, centre)
}

// An snBsOpId if present is at most the highest station ID known.
fn station_known(d: &[u8], id: Maybe<i64>) -> bool
    requires { Lies d.now }
    ensures { result ≡ (not id.here || not (is_below (highest_of (session_at d.now)) id.value)) }
{
    !id.here | (id.value <= lies::highest_of(d))
}

// An snScOpId if present is at least the lowest centre ID issued.
fn centre_known(d: &[u8], id: Maybe<i64>) -> bool
    requires { Lies d.now }
    ensures { result ≡ (not id.here || not (is_below id.value (lowest_of (session_at d.now)))) }
{
    !id.here | (lies::lowest_of(d) <= id.value)
}

fn resume(d: &mut [u8], sc_eui: u64, room: &mut [u8]) -> Result<Done, Refusal>
    requires { Lies d.old }
    ensures { ◌≡◌ {A = Called} (called result d.new room.new)
        (called_by d.old room.old (Outcome.replies Resumed (resumed (session_at d.old)) (con_rsp_with sc_eui true (sixteen_of (session_at d.old).sn_sc_uuid)) [])) }
{
    let own = sixteen_at(d, lies::SC_UUID);
    let length = writer::reply(con_rsp(sc_eui, true, own), room)?;
    d[lies::STATE] = lies::CONNECTING;
    Ok(Done {
        happened: Happened::Resumed,
        length,
    })
}

fn anew(d: &mut [u8], x: Con, sc_eui: u64, uuid: &[u8], room: &mut [u8]) -> Result<Done, Refusal>
    requires { Lies d.old × (length uuid.now ≡ 16) }
    ensures { ◌≡◌ {A = Called} (called result d.new room.new)
        (called_by d.old room.old (Outcome.replies Begun (begun (host_of sc_eui uuid.now []) x) (con_rsp_with sc_eui false (sixteen_of uuid.now)) [])) }
{
    let own = sixteen_at(uuid, 0);
    let length = writer::reply(con_rsp(sc_eui, false, own), room)?;
    let station = x.sn_bs_uuid;
    begin_anew(d, x.bs_eui, station, own);
    Ok(Done {
        happened: Happened::Begun,
        length,
    })
}

// conCmp with ID 0 opens; all else is 17.
#[tactic(auto, using(crate::proofs::Opening::openings, crate::proofs::Storing::long))]
pub fn in_connecting(d: &mut [u8], command: u8, id: i64) -> Result<Done, Refusal>
    requires { Lies d.old }
    ensures { (room : List ℕ) → ◌≡◌ {A = Called} (called result d.new room) (called_by d.old room (in_connecting (session_at d.old) command id)) }
{
    if (command == names::numbers::CON_CMP) & (id == 0) {
        d[lies::STATE] = lies::OPEN;
        return Ok(Done {
            happened: Happened::Opened,
            length: 0,
        });
    }
    Err(Refusal::State)
}
