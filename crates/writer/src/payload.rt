// A record's payload, by its variant.
ghost use mathlib.Core.{Path.◌≡◌, Bool.true, List.[]};
ghost use Rattle.std.specs.Prelude.{◌≤◌};
ghost use Rattle.forms.specs.Code.Put.{Put, put, put_parts};
ghost use Rattle.record.specs.{Says.is_named, Code.Most.frame_most};
ghost use Rattle.record.specs.declared.Body.{Body};
ghost use Rattle.writer.specs.Code.Parts.{has_data, body_parts};

use crate::connect::{con, con_rsp};
use crate::downlink::dl_data_que;
use crate::head::{bare, title};
use crate::pair::{field, four};
use crate::propagate::att_prp;
use crate::received::{det, ul_data};
use crate::status::status_rsp;
use record::Body;

pub fn payload(room: &mut [u8], at: usize, m: record::Message, d: &[u8]) -> usize
    requires { (true ≡ is_named m.body) × (true ≡ has_data m.body d.now) }
    ensures { ◌≡◌ {A = Put} (put room.new result) (put_parts (body_parts m.op_id m.body d.now) (put room.old at)) }
{
    let b = m.body;
    match b {
        Body::Con(x) => con(room, at, m.op_id, x),
        Body::ConRsp(x) => con_rsp(room, at, m.op_id, x),
        Body::StatusRsp(x) => status_rsp(room, at, m.op_id, x, d),
        Body::Det(x) => det(room, at, m.op_id, x),
        Body::DetRsp(g) => det_rsp(room, at, m.op_id, g),
        Body::AttPrp(x) => att_prp(room, at, m.op_id, x),
        Body::DetPrp(e) => det_prp(room, at, m.op_id, e),
        Body::UlData(x) => ul_data(room, at, m.op_id, x, d),
        Body::DlDataQue(x) => dl_data_que(room, at, m.op_id, x, d),
        Body::Bare(c) => bare(room, at, m.op_id, c),
    }
}

// What a session replies with is a conRsp, a detRsp or a bare record; no other is handed in.
pub fn reply_payload(room: &mut [u8], at: usize, m: record::Message) -> usize
    requires { (true ≡ is_named m.body) × (frame_most m.body ≤ 145) }
    ensures { ◌≡◌ {A = Put} (put room.new result) (put_parts (body_parts m.op_id m.body []) (put room.old at)) }
{
    let b = m.body;
    match b {
        Body::Con(_) => at,
        Body::ConRsp(x) => con_rsp(room, at, m.op_id, x),
        Body::StatusRsp(_) => at,
        Body::Det(_) => at,
        Body::DetRsp(g) => det_rsp(room, at, m.op_id, g),
        Body::AttPrp(_) => at,
        Body::DetPrp(_) => at,
        Body::UlData(_) => at,
        Body::DlDataQue(_) => at,
        Body::Bare(c) => bare(room, at, m.op_id, c),
    }
}

fn det_rsp(room: &mut [u8], at: usize, op_id: i64, sign: u32) -> usize
    ensures { ◌≡◌ {A = Put} (put room.new result) (put_parts (body_parts op_id (Body.DetRsp sign) []) (put room.old at)) }
{
    let a = title(room, at, 3, b"\xA7command\xA6detRsp\xA4opId", op_id);
    four(room, a, b"\xA4sign", sign)
}

fn det_prp(room: &mut [u8], at: usize, op_id: i64, eui: u64) -> usize
    ensures { ◌≡◌ {A = Put} (put room.new result) (put_parts (body_parts op_id (Body.DetPrp eui) []) (put room.old at)) }
{
    let a = title(room, at, 3, b"\xA7command\xA6detPrp\xA4opId", op_id);
    field(room, a, true, b"\xA5epEui", eui)
}
