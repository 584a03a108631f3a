// attPrp.
ghost use mathlib.Core.{Path.◌≡◌, List.[]};
ghost use Rattle.forms.specs.Code.Put.{Put, put, put_parts};
ghost use Rattle.record.specs.declared.Body.{Body};
ghost use Rattle.writer.specs.Code.Parts.{meter_parts, attachment_parts, modes_parts, body_parts};

use crate::head::title;
use crate::pair;

pub fn att_prp(room: &mut [u8], at: usize, op_id: i64, x: record::AttPrp) -> usize
    ensures { ◌≡◌ {A = Put} (put room.new result) (put_parts (body_parts op_id (Body.AttPrp x) []) (put room.old at)) }
{
    let k = x.nwk_sn_key;
    let a = title(room, at, 11, b"\xA7command\xA6attPrp\xA4opId", op_id);
    let b = meter(room, a, x.ep_eui, x.bidi);
    let c = attachment(room, b, k, x.sh_addr, x.last_packet_cnt);
    modes(
        room,
        c,
        x.dual_chan,
        x.repetition,
        x.wide_carr_off,
        x.long_blk_dist,
    )
}

#[tactic(auto, using(crate::proofs::Putting::chains), unfolding(crate::specs::Code::Parts::meter_parts))]
fn meter(room: &mut [u8], at: usize, eui: u64, bidi: bool) -> usize
    ensures { ◌≡◌ {A = Put} (put room.new result) (put_parts (meter_parts eui bidi) (put room.old at)) }
{
    let a = pair::field(room, at, true, b"\xA5epEui", eui);
    pair::field(room, a, true, b"\xA4bidi", bidi)
}

#[tactic(auto, using(crate::proofs::Putting::chains), unfolding(crate::specs::Code::Parts::attachment_parts))]
fn attachment(room: &mut [u8], at: usize, key: record::Sixteen, short: u16, counter: u32) -> usize
    ensures { ◌≡◌ {A = Put} (put room.new result) (put_parts (attachment_parts key short counter) (put room.old at)) }
{
    let a = pair::sixteen(room, at, b"\xA8nwkSnKey", key);
    let b = pair::field(room, a, true, b"\xA6shAddr", short);
    pair::field(room, b, true, b"\xADlastPacketCnt", counter)
}

fn modes(room: &mut [u8], at: usize, dual: bool, repeated: bool, wide: bool, long: bool) -> usize
    ensures { ◌≡◌ {A = Put} (put room.new result) (put_parts (modes_parts dual repeated wide long) (put room.old at)) }
{
    let a = pair::field(room, at, true, b"\xA8dualChan", dual);
    let b = pair::field(room, a, true, b"\xAArepetition", repeated);
    let c = pair::field(room, b, true, b"\xABwideCarrOff", wide);
    pair::field(room, c, true, b"\xABlongBlkDist", long)
}
