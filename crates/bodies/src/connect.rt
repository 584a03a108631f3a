// con and conRsp.
ghost use Rattle.std.specs.Prelude.{◌≡◌, ◌≤◌};
ghost use Rattle.message.specs.{Fields.described, Code.Cells.cells_at, Reading.gravest};
ghost use Rattle.bodies.specs.Code.Read.{plain_of};

use crate::{Held, part};
use message::listed;
use names::slots;
use record::Body;

#[tactic(auto, using(crate::proofs::Commands::con_is))]
pub fn con(s: &[u8], at: &[u16; 64], worst: u16) -> Held<Body>
    ensures { result ≡ plain_of s.now at.now 0 worst }
{
    let a = part::version(s, at[slots::VERSION], part::MUST, listed::VERSION, worst);
    let b = part::word(s, at[slots::BS_EUI], part::MUST, listed::BS_EUI, a.worst);
    let c = part::mark(s, at[slots::BIDI], part::MUST, listed::CON_BIDI, b.worst);
    let d = part::position(
        s,
        at[slots::GEO_LOCATION],
        listed::CON_GEO_LOCATION,
        c.worst,
    );
    let e = part::sixteen(s, at[slots::SN_BS_UUID], listed::SN_BS_UUID, d.worst);
    let f = part::id(
        s,
        at[slots::SN_BS_OP_ID],
        0,
        part::OP_ID_HIGH,
        part::MAY,
        listed::SN_BS_OP_ID,
        e.worst,
    );
    let g = part::id(
        s,
        at[slots::SN_SC_OP_ID],
        part::OP_ID_LOW,
        0,
        part::MAY,
        listed::SN_SC_OP_ID,
        f.worst,
    );
    Held {
        worst: described(s, at, listed::CON_VENDOR, g.worst),
        value: Body::Con(record::Con {
            version: a.value,
            bs_eui: b.value.value,
            bidi: c.value.value,
            geo_location: d.value,
            sn_bs_uuid: e.value,
            sn_bs_op_id: f.value,
            sn_sc_op_id: g.value,
        }),
    }
}

#[tactic(auto, using(crate::proofs::Commands::con_rsp_is))]
pub fn con_rsp(s: &[u8], at: &[u16; 64], worst: u16) -> Held<Body>
    ensures { result ≡ plain_of s.now at.now 1 worst }
{
    let a = part::version(s, at[slots::VERSION], part::MAY, listed::VERSION, worst);
    let b = part::word(s, at[slots::SC_EUI], part::MUST, listed::SC_EUI, a.worst);
    let c = part::mark(
        s,
        at[slots::SN_RESUME],
        part::MUST,
        listed::SN_RESUME,
        b.worst,
    );
    let d = part::sixteen(s, at[slots::SN_SC_UUID], listed::SN_SC_UUID, c.worst);
    Held {
        worst: described(s, at, listed::CON_RSP_VENDOR, d.worst),
        value: Body::ConRsp(record::ConRsp {
            version: a.value,
            sc_eui: b.value.value,
            sn_resume: c.value.value,
            sn_sc_uuid: d.value,
        }),
    }
}

// The D fields of both, from a place of the list on.
#[tactic(auto, using(crate::proofs::Commands::described_is))]
fn described(s: &[u8], at: &[u16; 64], i: u8, worst: u16) -> u16
    requires { i ≤ 32 }
    ensures { result ≡ gravest worst i described (cells_at described s.now at.now) }
{
    let a = part::unkept(s, at[slots::VENDOR], part::MAY, i, worst);
    let b = part::unkept(s, at[slots::MODEL], part::MAY, i + 1, a);
    let c = part::unkept(s, at[slots::NAME], part::MAY, i + 2, b);
    let d = part::unkept(s, at[slots::SW_VERSION], part::MAY, i + 3, c);
    part::table(s, at[slots::INFO], i + 4, d)
}
