// attPrp and detPrp.
ghost use Rattle.std.specs.Prelude.{◌≡◌};
ghost use Rattle.bodies.specs.Code.Read.{plain_of};

use crate::{Held, part};
use message::listed;
use names::slots;
use record::Body;

#[tactic(auto, using(crate::proofs::Commands::att_prp_is))]
pub fn att_prp(s: &[u8], at: &[u16; 64], worst: u16) -> Held<Body>
    ensures { result ≡ plain_of s.now at.now 5 worst }
{
    let a = part::word(s, at[slots::EP_EUI], part::MUST, listed::EP_EUI, worst);
    let b = part::mark(
        s,
        at[slots::BIDI],
        part::MUST,
        listed::ATT_PRP_BIDI,
        a.worst,
    );
    let c = part::sixteen(s, at[slots::NWK_SN_KEY], listed::NWK_SN_KEY, b.worst);
    let d = part::short(s, at[slots::SH_ADDR], listed::SH_ADDR, c.worst);
    let e = part::count(
        s,
        at[slots::LAST_PACKET_CNT],
        listed::LAST_PACKET_CNT,
        d.worst,
    );
    let f = part::mark(
        s,
        at[slots::DUAL_CHAN],
        part::MUST,
        listed::DUAL_CHAN,
        e.worst,
    );
    let g = part::mark(
        s,
        at[slots::REPETITION],
        part::MUST,
        listed::REPETITION,
        f.worst,
    );
    let h = part::mark(
        s,
        at[slots::WIDE_CARR_OFF],
        part::MUST,
        listed::WIDE_CARR_OFF,
        g.worst,
    );
    let i = part::mark(
        s,
        at[slots::LONG_BLK_DIST],
        part::MUST,
        listed::LONG_BLK_DIST,
        h.worst,
    );
    Held {
        worst: i.worst,
        value: Body::AttPrp(record::AttPrp {
            ep_eui: a.value.value,
            bidi: b.value.value,
            nwk_sn_key: c.value,
            sh_addr: d.value,
            last_packet_cnt: e.value,
            dual_chan: f.value.value,
            repetition: g.value.value,
            wide_carr_off: h.value.value,
            long_blk_dist: i.value.value,
        }),
    }
}

#[tactic(auto, using(crate::proofs::Commands::det_prp_is))]
pub fn det_prp(s: &[u8], at: &[u16; 64], worst: u16) -> Held<Body>
    ensures { result ≡ plain_of s.now at.now 6 worst }
{
    let a = part::word(s, at[slots::EP_EUI], part::MUST, listed::EP_EUI, worst);
    Held {
        worst: a.worst,
        value: Body::DetPrp(a.value.value),
    }
}
