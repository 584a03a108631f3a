// con and conRsp.
ghost use mathlib.Core.{Path.◌≡◌, List.[]};
ghost use Rattle.forms.specs.Code.Put.{Put, put, put_parts};
ghost use Rattle.record.specs.declared.Body.{Body};
ghost use Rattle.writer.specs.Code.Parts.{station_parts, resume_parts, centre_parts, body_parts};

use crate::head::{count, title};
use crate::pair;
use message::Maybe;
use record::{Con, ConRsp, Sixteen};

pub fn con(room: &mut [u8], at: usize, op_id: i64, x: Con) -> usize
    ensures { ◌≡◌ {A = Put} (put room.new result) (put_parts (body_parts op_id (Body.Con x) []) (put room.old at)) }
{
    let u = x.sn_bs_uuid;
    let s = x.sn_bs_op_id;
    let c = x.sn_sc_op_id;
    let n = count(
        5,
        x.version.here,
        x.geo_location.here,
        x.sn_bs_op_id.here,
        x.sn_sc_op_id.here,
        false,
    );
    let a = title(room, at, n, b"\xA7command\xA3con\xA4opId", op_id);
    let b = station(room, a, x);
    resume(room, b, u, s, c)
}

#[tactic(auto, using(crate::proofs::Putting::chains), unfolding(crate::specs::Code::Parts::station_parts))]
fn station(room: &mut [u8], at: usize, x: Con) -> usize
    ensures { ◌≡◌ {A = Put} (put room.new result) (put_parts (station_parts x) (put room.old at)) }
{
    let v = x.version;
    let g = x.geo_location;
    let a = pair::maybe(room, at, b"\xA7version", v);
    let b = pair::field(room, a, true, b"\xA5bsEui", x.bs_eui);
    let c = pair::field(room, b, true, b"\xA4bidi", x.bidi);
    pair::maybe(room, c, b"\xABgeoLocation", g)
}

// What a station tells of the session that it would resume.
#[tactic(auto, using(crate::proofs::Putting::chains), unfolding(crate::specs::Code::Parts::resume_parts))]
fn resume(
    room: &mut [u8],
    at: usize,
    uuid: Sixteen,
    station: Maybe<i64>,
    centre: Maybe<i64>,
) -> usize
    ensures { ◌≡◌ {A = Put} (put room.new result) (put_parts (resume_parts uuid station centre) (put room.old at)) }
{
    let a = pair::sixteen(room, at, b"\xA8snBsUuid", uuid);
    let b = pair::maybe(room, a, b"\xA8snBsOpId", station);
    pair::maybe(room, b, b"\xA8snScOpId", centre)
}

pub fn con_rsp(room: &mut [u8], at: usize, op_id: i64, x: ConRsp) -> usize
    ensures { ◌≡◌ {A = Put} (put room.new result) (put_parts (body_parts op_id (Body.ConRsp x) []) (put room.old at)) }
{
    let n = count(5, x.version.here, false, false, false, false);
    let a = title(room, at, n, b"\xA7command\xA6conRsp\xA4opId", op_id);
    centre(room, a, x)
}

#[tactic(auto, using(crate::proofs::Putting::chains), unfolding(crate::specs::Code::Parts::centre_parts))]
fn centre(room: &mut [u8], at: usize, x: ConRsp) -> usize
    ensures { ◌≡◌ {A = Put} (put room.new result) (put_parts (centre_parts x) (put room.old at)) }
{
    let v = x.version;
    let u = x.sn_sc_uuid;
    let a = pair::maybe(room, at, b"\xA7version", v);
    let b = pair::field(room, a, true, b"\xA5scEui", x.sc_eui);
    let c = pair::field(room, b, true, b"\xA8snResume", x.sn_resume);
    pair::sixteen(room, c, b"\xA8snScUuid", u)
}
