// dlDataQue. Its counters and data entries stay where they are.
ghost use Rattle.std.specs.Prelude.{◌≡◌, is_none};
ghost use Rattle.bodies.specs.Code.Read.{flags_as, downlink_of, miscounted_by, agree_by, is_valid_by};

use crate::{Held, Marks, Parts, part};
use field::Flaw;
use message::{Maybe, listed};
use names::slots;
use record::Body;

#[tactic(auto, using(crate::proofs::Downlinks::downlink_is))]
pub fn dl_data_que(s: &[u8], at: &[u16; 64], worst: u16) -> Held<Body>
    ensures { result ≡ downlink_of s.now at.now worst }
{
    let a = part::word(s, at[slots::EP_EUI], part::MUST, listed::EP_EUI, worst);
    let b = part::word(s, at[slots::QUE_ID], part::MUST, listed::QUE_ID, a.worst);
    let c = part::mark(
        s,
        at[slots::CNT_DEPEND],
        part::MUST,
        listed::CNT_DEPEND,
        b.worst,
    );
    let d = part::counters(
        s,
        at[slots::PACKET_CNT],
        listed::DOWNLINK_PACKET_CNT,
        c.worst,
    );
    let e = part::entries(s, at[slots::USER_DATA], listed::DOWNLINK_USER_DATA, d.worst);
    let f = part::format(s, at[slots::FORMAT], listed::DOWNLINK_FORMAT, e.worst);
    let g = part::single(s, at[slots::PRIO], listed::PRIO, f.worst);
    let h = flags(s, at, g.worst);
    let depends = c.value;
    let marks = h.value;
    Held {
        worst: h.worst.max(miscounted(depends, d.value, e.value)),
        value: Body::DlDataQue(record::DlDataQue {
            ep_eui: a.value.value,
            que_id: b.value.value,
            cnt_depend: depends.value,
            entries: e.value.count,
            format: f.value,
            prio: g.value.value,
            response_exp: marks.response_exp,
            response_prio: marks.response_prio,
            dl_wind_req: marks.dl_wind_req,
            exp_only: marks.exp_only,
        }),
    }
}

#[tactic(auto, using(crate::proofs::Downlinks::flags_is))]
fn flags(s: &[u8], at: &[u16; 64], worst: u16) -> Held<Marks>
    ensures { result ≡ flags_as s.now at.now worst }
{
    let a = part::mark(
        s,
        at[slots::RESPONSE_EXP],
        part::MAY,
        listed::DOWNLINK_RESPONSE_EXP,
        worst,
    );
    let b = part::mark(
        s,
        at[slots::RESPONSE_PRIO],
        part::MAY,
        listed::RESPONSE_PRIO,
        a.worst,
    );
    let c = part::mark(
        s,
        at[slots::DL_WIND_REQ],
        part::MAY,
        listed::DL_WIND_REQ,
        b.worst,
    );
    let d = part::mark(s, at[slots::EXP_ONLY], part::MAY, listed::EXP_ONLY, c.worst);
    Held {
        worst: d.worst,
        value: Marks {
            response_exp: a.value,
            response_prio: b.value,
            dl_wind_req: c.value,
            exp_only: d.value,
        },
    }
}

// cntDepend against its counts is invalid, at packetCnt's place, where all three are valid.
#[tactic(auto, unfolding(crate::specs::Code::Read::miscounted_by))]
fn miscounted(depends: Maybe<bool>, counters: Parts, entries: Parts) -> u16
    ensures { result ≡ miscounted_by depends counters entries }
{
    let judged = depends.here & (is_valid(counters.flaw) & is_good(entries.flaw));
    if judged & !agree(depends.value, counters, entries) {
        part::grade_of(Flaw::Invalid, listed::DOWNLINK_PACKET_CNT)
    } else {
        0
    }
}

// As many entries as counters, at least one; or one entry and no counters.
#[tactic(auto, unfolding(crate::specs::Code::Read::agree_by))]
fn agree(depends: bool, counters: Parts, entries: Parts) -> bool
    ensures { result ≡ agree_by depends counters entries }
{
    let given = is_good(counters.flaw);
    if depends {
        given & ((counters.count == entries.count) & (1 <= entries.count))
    } else {
        !given & (entries.count == 1)
    }
}

fn is_good(flaw: Option<Flaw>) -> bool
    ensures { result ≡ is_none flaw }
{
    matches!(flaw, None)
}

// There, or absent.
fn is_valid(flaw: Option<Flaw>) -> bool
    ensures { result ≡ is_valid_by flaw }
{
    matches!(flaw, None | Some(Flaw::Missing))
}
