// Records as they lie in a C host's memory, and back. No call has a requirement.
#![tactic(auto)]

mod leaf;
mod put;
mod taken;

ghost use mathlib.Core.{Path.◌≡◌, Bool.true};
ghost use lib.{Dec.eqb, ListN.length};
ghost use Rattle.octets.specs.Choice.{either};
ghost use Rattle.record.specs.{declared.Body.Body, Says.is_named};
ghost use Rattle.layout.specs.Image.{body_lies, head_lies, laid, message_size, clear_image, message_image};
ghost use Rattle.layout.specs.Taken.{message_at};

use names::numbers;
use record::{Body, DlDataQue, Message};

// How many bytes a record takes.
pub const SIZE: usize = 104;

// The record of an image. Each command answers by itself: where the answers meet, all would carry the fields of all.
pub fn message_in(d: &[u8]) -> Message
    ensures { result ≡ message_at d.now }
{
    let head = taken::head_in(d);
    let c = head.command;
    let id = head.op_id;
    if !head.marked {
        return with(id, Body::Bare(c));
    }
    match c {
        numbers::CON => return with(id, Body::Con(taken::con_in(d))),
        numbers::CON_RSP => return with(id, Body::ConRsp(taken::con_rsp_in(d))),
        numbers::STATUS_RSP => return with(id, Body::StatusRsp(taken::status_rsp_in(d))),
        numbers::DET => return with(id, Body::Det(taken::det_in(d))),
        numbers::DET_RSP => return with(id, Body::DetRsp(taken::four(d, 16))),
        numbers::ATT_PRP => return with(id, Body::AttPrp(taken::att_prp_in(d))),
        numbers::DET_PRP => return with(id, Body::DetPrp(taken::word(d, 16))),
        numbers::UL_DATA => return with(id, Body::UlData(taken::ul_data_in(d))),
        numbers::DL_DATA_QUE => return with(id, Body::DlDataQue(taken::dl_data_que_in(d))),
        _ => {}
    }
    with(id, Body::Bare(c))
}

fn with(id: i64, body: Body) -> Message
    ensures { ◌≡◌ {A = Message} result (record { op_id = id; body = body }) }
{
    Message {
        op_id: id,
        body: body,
    }
}

fn clear(d: &mut [u8])
    requires { length d.old ≡ message_size }
    ensures { d.new ≡ clear_image }
{
    d.fill(0);
}

// What each command has, and zeros besides.
fn put_head(d: &mut [u8], z: i64, c: u8)
    requires { length d.old ≡ message_size }
    ensures { d.new ≡ laid (head_lies z c) (clear_image) }
{
    clear(d);
    put::put_id(d, 0, z);
    put::put_small(d, 8, c);
}

// A dlDataQue with its operation ID, into a room of a record's size.
pub fn put_downlink(d: &mut [u8], id: i64, x: DlDataQue)
    requires { length d.old ≡ message_size }
    ensures { d.new ≡ message_image (record { op_id = id; body = Body.DlDataQue x }) }
{
    put_head(d, id, numbers::DL_DATA_QUE);
    put::put_dl_data_que(d, x)
}

// Behind what each command has, its own fields.
fn put_body(d: &mut [u8], b: Body)
    requires { length d.old ≡ message_size }
    ensures { d.new ≡ laid (body_lies b) d.old }
{
    match b {
        Body::Con(x) => put::put_con(d, x),
        Body::ConRsp(x) => put::put_con_rsp(d, x),
        Body::StatusRsp(x) => put::put_status_rsp(d, x),
        Body::Det(x) => put::put_det(d, x),
        Body::DetRsp(sign) => put::put_four(d, 16, sign),
        Body::AttPrp(x) => put::put_att_prp(d, x),
        Body::DetPrp(eui) => put::put_word(d, 16, eui),
        Body::UlData(x) => put::put_ul_data(d, x),
        Body::DlDataQue(x) => put::put_dl_data_que(d, x),
        Body::Bare(_) => {}
    }
}

fn put_all(d: &mut [u8], m: Message)
    requires { length d.old ≡ message_size }
    ensures { d.new ≡ message_image m }
{
    let b = m.body;
    put_head(d, m.op_id, record::command_in(b));
    put_body(d, b);
}

// A record into a room of its size, where a named one is found again; any other room stays as it is.
pub fn put_message(image: &mut [u8], m: Message)
    ensures is { image.new ≡ either (eqb (length image.old) message_size) (λ _. message_image m) (λ _. image.old) }
    ensures back { length image.old ≡ message_size → is_named m.body ≡ true → message_at image.new ≡ m }
{
    if image.len() == SIZE {
        put_all(image, m);
    }
}
