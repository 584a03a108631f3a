// statusRsp. Its message is lent.
ghost use Rattle.std.specs.Prelude.{◌≡◌, take};
ghost use Rattle.forms.specs.Code.Put.{Put, put, put_parts};
ghost use Rattle.record.specs.declared.Body.{Body};
ghost use Rattle.writer.specs.Code.Parts.{duty_parts, load_parts, report_parts, body_parts};

use crate::head::{count, title};
use crate::pair;
use record::StatusRsp;

pub fn status_rsp(room: &mut [u8], at: usize, op_id: i64, x: StatusRsp, d: &[u8]) -> usize
    ensures { ◌≡◌ {A = Put} (put room.new result) (put_parts (body_parts op_id (Body.StatusRsp x) d.now) (put room.old at)) }
{
    let n = count(
        6,
        x.geo_location.here,
        x.uptime.here,
        x.temp.here,
        x.cpu_load.here,
        x.mem_load.here,
    );
    let a = title(room, at, n, b"\xA7command\xA9statusRsp\xA4opId", op_id);
    report(room, a, x, d)
}

fn report(room: &mut [u8], at: usize, x: StatusRsp, d: &[u8]) -> usize
    ensures { ◌≡◌ {A = Put} (put room.new result) (put_parts (report_parts x d.now) (put room.old at)) }
{
    let a = pair::field(room, at, true, b"\xA4code", x.code);
    let b = duty(room, a, d, x.message_len, x.time, x.duty_cycle);
    load(room, b, x)
}

#[tactic(auto, using(crate::proofs::Putting::chains), unfolding(crate::specs::Code::Parts::duty_parts))]
fn duty(room: &mut [u8], at: usize, d: &[u8], n: u8, time: u64, cycle: f64) -> usize
    ensures { ◌≡◌ {A = Put} (put room.new result) (put_parts (duty_parts (take n d.now) time cycle) (put room.old at)) }
{
    let a = pair::text(room, at, b"\xA7message", d, n);
    let b = pair::field(room, a, true, b"\xA4time", time);
    pair::field(room, b, true, b"\xA9dutyCycle", cycle)
}

#[tactic(auto, using(crate::proofs::Putting::chains), unfolding(crate::specs::Code::Parts::load_parts))]
fn load(room: &mut [u8], at: usize, x: StatusRsp) -> usize
    ensures { ◌≡◌ {A = Put} (put room.new result) (put_parts (load_parts x) (put room.old at)) }
{
    let g = x.geo_location;
    let a = pair::maybe(room, at, b"\xABgeoLocation", g);
    let b = pair::maybe(room, a, b"\xA6uptime", x.uptime);
    let c = pair::maybe(room, b, b"\xA4temp", x.temp);
    let d = pair::maybe(room, c, b"\xA7cpuLoad", x.cpu_load);
    pair::maybe(room, d, b"\xA7memLoad", x.mem_load)
}
