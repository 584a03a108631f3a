// Open: operations that the station starts and completes, and its answers to those of the centre.
ghost use mathlib.Core.{Path.◌≡◌, Bool.true, List.List};
ghost use Rattle.std.specs.Prelude.{ℕ};
ghost use Rattle.record.specs.Says.{is_bare};
ghost use Rattle.session.specs.{Place.free_place, Place.entry_place, Image.session_at};
ghost use Rattle.session.specs.Arrive.{in_open, starts, start_at, complete_at, respond_at};
ghost use Rattle.steps.specs.Code.Lies.{Lies, is_reply, started_by, ended_by};
ghost use Rattle.steps.specs.Called.{Called, called, called_by};

use crate::places::{free_place, place_of};
use crate::reply::{bare, rsp};
use crate::side::Side;
use crate::{Done, lies, stored};
use names::numbers;
use refusal::Refusal;
use session::Happened;

pub fn in_open(
    d: &mut [u8],
    sign: u32,
    command: u8,
    id: i64,
    room: &mut [u8],
) -> Result<Done, Refusal>
    requires { Lies d.old }
    ensures { ◌≡◌ {A = Called} (called result d.new room.new)
        (called_by d.old room.old (in_open (session_at d.old) sign command id)) }
{
    match command {
        numbers::PING => starts(d, numbers::PING, numbers::PING_RSP, sign, id, room),
        numbers::DET => starts(d, numbers::DET, numbers::DET_RSP, sign, id, room),
        numbers::UL_DATA => starts(d, numbers::UL_DATA, numbers::UL_DATA_RSP, sign, id, room),
        numbers::PING_CMP => completes(d, numbers::PING, id),
        numbers::DET_CMP => completes(d, numbers::DET, id),
        numbers::UL_DATA_CMP => completes(d, numbers::UL_DATA, id),
        numbers::PING_RSP => answers(d, numbers::PING, numbers::PING_CMP, id, room),
        numbers::STATUS_RSP => answers(d, numbers::STATUS, numbers::STATUS_CMP, id, room),
        numbers::ATT_PRP_RSP => answers(d, numbers::ATT_PRP, numbers::ATT_PRP_CMP, id, room),
        numbers::DET_PRP_RSP => answers(d, numbers::DET_PRP, numbers::DET_PRP_CMP, id, room),
        numbers::DL_DATA_QUE_RSP => answers(
            d,
            numbers::DL_DATA_QUE,
            numbers::DL_DATA_QUE_CMP,
            id,
            room,
        ),
        _ => Err(Refusal::State),
    }
}

// A station starts with an ID above the highest known and above 0 (18).
fn starts(
    d: &mut [u8],
    start: u8,
    answer: u8,
    sign: u32,
    id: i64,
    room: &mut [u8],
) -> Result<Done, Refusal>
    requires { Lies d.old × (is_reply answer ≡ true) }
    ensures { ◌≡◌ {A = Called} (called result d.new room.new)
        (called_by d.old room.old (starts (session_at d.old) sign (started_by start answer) id)) }
{
    if id <= lies::highest_of(d) {
        return Err(Refusal::IdOutOfOrder);
    }
    start_at(d, start, answer, sign, id, room)
}

// With a free place (19); the reply is the Rsp.
fn start_at(
    d: &mut [u8],
    start: u8,
    answer: u8,
    sign: u32,
    id: i64,
    room: &mut [u8],
) -> Result<Done, Refusal>
    requires { Lies d.old × (is_reply answer ≡ true) }
    ensures { ◌≡◌ {A = Called} (called result d.new room.new)
        (called_by d.old room.old (start_at (session_at d.old) sign (started_by start answer) id (free_place (session_at d.old).station))) }
{
    let Some(i) = free_place(d, Side::Station) else {
        return Err(Refusal::SixteenOpen);
    };
    let length = writer::reply(rsp(sign, answer, id), room)?;
    stored::take(d, Side::Station, i, id, start);
    Ok(Done {
        happened: Happened::Started,
        length,
    })
}

// The entry is freed by a Cmp of the same kind and ID.
#[tactic(auto, using(crate::proofs::Branches::branches, crate::proofs::Storing::long))]
fn completes(d: &mut [u8], start: u8, id: i64) -> Result<Done, Refusal>
    requires { Lies d.old }
    ensures { (room : List ℕ) → ◌≡◌ {A = Called} (called result d.new room)
        (called_by d.old room (complete_at (session_at d.old) (entry_place id start (session_at d.old).station))) }
{
    let Some(i) = place_of(d, Side::Station, id, start) else {
        return Err(Refusal::State);
    };
    stored::free(d, Side::Station, i);
    Ok(Done {
        happened: Happened::Completed,
        length: 0,
    })
}

// A matching Rsp is replied to with Cmp and frees the entry.
fn answers(d: &mut [u8], start: u8, complete: u8, id: i64, room: &mut [u8]) -> Result<Done, Refusal>
    requires { Lies d.old × (is_bare complete ≡ true) }
    ensures { ◌≡◌ {A = Called} (called result d.new room.new)
        (called_by d.old room.old (respond_at (session_at d.old) (ended_by start complete) id (entry_place id start (session_at d.old).centre))) }
{
    let Some(i) = place_of(d, Side::Centre, id, start) else {
        return Err(Refusal::State);
    };
    let length = writer::reply(bare(complete, id), room)?;
    stored::free(d, Side::Centre, i);
    Ok(Done {
        happened: Happened::Answered,
        length,
    })
}
