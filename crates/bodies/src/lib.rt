// A command's fields one after the other, as document 01 lists them, each at its place in the bytes: the gravest fault, and the record.
#![tactic(auto)]

mod connect;
mod downlink;
mod part;
mod propagate;
mod received;
mod status;

ghost use Rattle.std.specs.Prelude.{◌≡◌};
ghost use Rattle.bodies.specs.Code.Read.{Read, read_of, Bodying, bodying, bodied_of};

use connect::{con, con_rsp};
use downlink::dl_data_que;
use field::Flaw;
use message::{Maybe, listed};
use names::{numbers, slots};
use propagate::{att_prp, det_prp};
use record::{Body, Message, Sixteen};
use status::status_rsp;

// A field's value, and the gravest fault of its list with it.
#[derive(Clone, Copy)]
struct Held<T> {
    worst: u16,
    value: T,
}

// An array's parts: why there is none, and how many they are.
#[derive(Clone, Copy)]
struct Parts {
    flaw: Option<Flaw>,
    count: u8,
}

// The first `len` of sixteen bytes; zeros behind them.
#[derive(Clone, Copy)]
struct Profile {
    len: u8,
    text: Sixteen,
}

// A downlink's optional marks.
#[derive(Clone, Copy)]
struct Marks {
    response_exp: Maybe<bool>,
    response_prio: Maybe<bool>,
    dl_wind_req: Maybe<bool>,
    exp_only: Maybe<bool>,
}

// A fault of rank 1 (invalid), 2 (missing) or 3 (twice) counts for more than any place.
pub const RANK: u16 = 64;

// The gravest fault of a command's fields, and the record. Its definition `Read` names both, so it is no `Held<Message>`.
#[derive(Clone, Copy)]
pub struct Graded {
    pub worst: u16,
    pub message: Message,
}

// Of the command with a number, its fields' places by slot. userData's bytes go into a room.
pub fn read(s: &[u8], at: &[u16; 64], command: u8, user: &mut [u8; 245]) -> Graded
    ensures { ◌≡◌ {A = Read} (record { graded = result; user = user.new }) (read_of s.now at.now command user.old) }
{
    let named = part::unkept(s, at[slots::COMMAND], part::MUST, listed::COMMAND, 0);
    let op_id = part::id(
        s,
        at[slots::OP_ID],
        part::OP_ID_LOW,
        part::OP_ID_HIGH,
        part::MUST,
        listed::OP_ID,
        named,
    );
    let b = body_of(s, at, command, user, op_id.worst);
    Graded {
        worst: b.worst,
        message: Message {
            op_id: op_id.value.value,
            body: b.value,
        },
    }
}

// Nothing is read that the command has not. Each command answers by itself: where the answers meet, all would carry the fields of all.
#[tactic(auto, using(crate::proofs::Whole::bodieds))]
fn body_of(s: &[u8], at: &[u16; 64], command: u8, user: &mut [u8; 245], worst: u16) -> Held<Body>
    ensures { ◌≡◌ {A = Bodying} (bodying result user.new) (bodied_of s.now at.now command user.old worst) }
{
    match command {
        numbers::CON => return con(s, at, worst),
        numbers::CON_RSP => return con_rsp(s, at, worst),
        numbers::STATUS_RSP => return status_rsp(s, at, worst),
        numbers::DET => return received::det(s, at, worst),
        numbers::DET_RSP => return received::det_rsp(s, at, worst),
        numbers::ATT_PRP => return att_prp(s, at, worst),
        numbers::DET_PRP => return det_prp(s, at, worst),
        numbers::UL_DATA => return received::ul_data(s, at, user, worst),
        numbers::DL_DATA_QUE => return dl_data_que(s, at, worst),
        _ => {}
    }
    Held {
        worst: worst,
        value: Body::Bare(command),
    }
}
