// dlDataQue. Its counters, lengths and data entries are lent.
ghost use mathlib.Core.{Path.◌≡◌, Bool.not};
ghost use Rattle.std.specs.Prelude.{◌+◌, ◌≤◌, length};
ghost use Rattle.octets.specs.Pieces.{lengths_lent, sum_of};
ghost use Rattle.forms.specs.Code.Put.{Put, put, put_parts};
ghost use Rattle.saying.specs.Says.{no_bits};
ghost use Rattle.record.specs.declared.Body.{Body};
ghost use Rattle.writer.specs.Code.Parts.{downlink_count, queue_parts, weight_parts, wishes_parts, body_parts};

use crate::head::{count, title};
use crate::pair;
use record::DlDataQue;

pub fn dl_data_que(room: &mut [u8], at: usize, op_id: i64, x: DlDataQue, d: &[u8]) -> usize
    requires { (x.entries ≤ 16) × (80 + sum_of (lengths_lent x.entries d.now) ≤ length d.now) }
    ensures { ◌≡◌ {A = Put} (put room.new result) (put_parts (body_parts op_id (Body.DlDataQue x) d.now) (put room.old at)) }
{
    let prior = has_prio(x.prio);
    let n = pairs(x, prior);
    let a = title(room, at, n, b"\xA7command\xA9dlDataQue\xA4opId", op_id);
    let b = queue(room, a, x, d);
    let c = weight(room, b, x.format, prior, x.prio);
    wishes(room, c, x)
}

// A priority of plus zero isn't written.
fn has_prio(prio: f64) -> bool
    ensures { result ≡ not (no_bits prio) }
{
    !faults::no_bits(prio)
}

// Seven of its pairs are optional.
fn pairs(x: DlDataQue, prior: bool) -> u8
    ensures { result ≡ downlink_count x prior }
{
    let some = count(
        6,
        x.cnt_depend,
        x.format != 0,
        prior,
        x.response_exp.here,
        x.response_prio.here,
    );
    count(
        some,
        x.dl_wind_req.here,
        x.exp_only.here,
        false,
        false,
        false,
    )
}

#[tactic(auto, using(crate::proofs::Putting::chains), unfolding(crate::specs::Code::Parts::queue_parts))]
fn queue(room: &mut [u8], at: usize, x: DlDataQue, d: &[u8]) -> usize
    requires { (x.entries ≤ 16) × (80 + sum_of (lengths_lent x.entries d.now) ≤ length d.now) }
    ensures { ◌≡◌ {A = Put} (put room.new result) (put_parts (queue_parts x d.now) (put room.old at)) }
{
    let a = pair::field(room, at, true, b"\xA5epEui", x.ep_eui);
    let b = pair::field(room, a, true, b"\xA5queId", x.que_id);
    let c = pair::field(room, b, true, b"\xA9cntDepend", x.cnt_depend);
    let e = pair::counters(room, c, x.cnt_depend, b"\xA9packetCnt", d, x.entries);
    pair::pieces(room, e, b"\xA8userData", d, x.entries)
}

// A format of 0 isn't written.
#[tactic(auto, using(crate::proofs::Putting::chains), unfolding(crate::specs::Code::Parts::weight_parts))]
fn weight(room: &mut [u8], at: usize, format: u8, prior: bool, prio: f64) -> usize
    ensures { ◌≡◌ {A = Put} (put room.new result) (put_parts (weight_parts format prior prio) (put room.old at)) }
{
    let a = pair::field(room, at, format != 0, b"\xA6format", format);
    pair::field(room, a, prior, b"\xA4prio", prio)
}

fn wishes(room: &mut [u8], at: usize, x: DlDataQue) -> usize
    ensures { ◌≡◌ {A = Put} (put room.new result) (put_parts (wishes_parts x) (put room.old at)) }
{
    let a = pair::maybe(room, at, b"\xABresponseExp", x.response_exp);
    let b = pair::maybe(room, a, b"\xACresponsePrio", x.response_prio);
    let c = pair::maybe(room, b, b"\xA9dlWindReq", x.dl_wind_req);
    pair::maybe(room, c, b"\xA7expOnly", x.exp_only)
}
