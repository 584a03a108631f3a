// statusRsp. Its text stays where it is.
ghost use Rattle.std.specs.Prelude.{◌≡◌};
ghost use Rattle.bodies.specs.Code.Read.{plain_of};

use crate::{Held, part};
use message::listed;
use names::slots;
use record::Body;

pub fn status_rsp(s: &[u8], at: &[u16; 64], worst: u16) -> Held<Body>
    ensures { result ≡ plain_of s.now at.now 2 worst }
{
    let a = part::code(s, at[slots::CODE], listed::CODE, worst);
    let b = part::letters(s, at[slots::MESSAGE], listed::MESSAGE, a.worst);
    let c = part::word(s, at[slots::TIME], part::MUST, listed::TIME, b.worst);
    let d = part::real(
        s,
        at[slots::DUTY_CYCLE],
        part::MUST,
        listed::DUTY_CYCLE,
        c.worst,
    );
    let e = part::position(
        s,
        at[slots::GEO_LOCATION],
        listed::STATUS_GEO_LOCATION,
        d.worst,
    );
    let f = part::word(s, at[slots::UPTIME], part::MAY, listed::UPTIME, e.worst);
    let g = part::real(s, at[slots::TEMP], part::MAY, listed::TEMP, f.worst);
    let h = part::real(s, at[slots::CPU_LOAD], part::MAY, listed::CPU_LOAD, g.worst);
    let i = part::real(s, at[slots::MEM_LOAD], part::MAY, listed::MEM_LOAD, h.worst);
    Held {
        worst: part::table(s, at[slots::CONFIG], listed::CONFIG, i.worst),
        value: Body::StatusRsp(record::StatusRsp {
            code: a.value,
            message_len: b.value,
            time: c.value.value,
            duty_cycle: d.value.value,
            geo_location: e.value,
            uptime: f.value,
            temp: g.value,
            cpu_load: h.value,
            mem_load: i.value,
        }),
    }
}
