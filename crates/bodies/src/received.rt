// det, detRsp and ulData. What det and ulData tell of a packet is the same in both.
ghost use Rattle.std.specs.Prelude.{◌≡◌};
ghost use Rattle.bodies.specs.Code.Read.{packet_as, plain_of, Bodying, bodying, crossed_by, bodied_of};

use crate::{Held, part};
use field::Flaw;
use message::listed;
use names::slots;
use record::Body;

#[tactic(auto, using(crate::proofs::Commands::packet_is))]
fn packet(s: &[u8], at: &[u16; 64], worst: u16) -> Held<record::Packet>
    ensures { result ≡ packet_as s.now at.now worst }
{
    let a = part::word(s, at[slots::EP_EUI], part::MUST, listed::EP_EUI, worst);
    let b = part::word(s, at[slots::RX_TIME], part::MUST, listed::RX_TIME, a.worst);
    let c = part::word(
        s,
        at[slots::RX_DURATION],
        part::MAY,
        listed::RX_DURATION,
        b.worst,
    );
    let d = part::count(s, at[slots::PACKET_CNT], listed::PACKET_CNT, c.worst);
    let e = part::real(s, at[slots::SNR], part::MUST, listed::SNR, d.worst);
    let f = part::real(s, at[slots::RSSI], part::MUST, listed::RSSI, e.worst);
    let g = part::real(s, at[slots::EQ_SNR], part::MAY, listed::EQ_SNR, f.worst);
    let h = part::profile(s, at[slots::PROFILE], listed::PROFILE, g.worst);
    let profile = h.value;
    Held {
        worst: h.worst,
        value: record::Packet {
            ep_eui: a.value.value,
            rx_time: b.value.value,
            rx_duration: c.value,
            packet_cnt: d.value,
            signal: message::Signal {
                snr: e.value.value,
                rssi: f.value.value,
                eq_snr: g.value,
            },
            profile_len: profile.len,
            profile: profile.text,
        },
    }
}

#[tactic(auto, using(crate::proofs::Commands::det_is))]
pub fn det(s: &[u8], at: &[u16; 64], worst: u16) -> Held<Body>
    ensures { result ≡ plain_of s.now at.now 3 worst }
{
    let p = packet(s, at, worst);
    let sign = part::four(s, at[slots::SIGN], listed::DET_SIGN, p.worst);
    Held {
        worst: part::table(s, at[slots::SUBPACKETS], listed::DET_SUBPACKETS, sign.worst),
        value: Body::Det(record::Det {
            packet: p.value,
            sign: sign.value,
        }),
    }
}

#[tactic(auto, using(crate::proofs::Commands::det_rsp_is))]
pub fn det_rsp(s: &[u8], at: &[u16; 64], worst: u16) -> Held<Body>
    ensures { result ≡ plain_of s.now at.now 4 worst }
{
    let sign = part::four(s, at[slots::SIGN], listed::DET_RSP_SIGN, worst);
    Held {
        worst: sign.worst,
        value: Body::DetRsp(sign.value),
    }
}

#[tactic(auto, using(crate::proofs::Commands::ul_data_is))]
pub fn ul_data(s: &[u8], at: &[u16; 64], user: &mut [u8; 245], worst: u16) -> Held<Body>
    ensures { ◌≡◌ {A = Bodying} (bodying result user.new) (bodied_of s.now at.now 7 user.old worst) }
{
    let p = packet(s, at, worst);
    let a = part::octets(s, at[slots::USER_DATA], user, listed::USER_DATA, p.worst);
    let b = part::format(s, at[slots::FORMAT], listed::FORMAT, a.worst);
    let c = part::mark(s, at[slots::DL_OPEN], part::MUST, listed::DL_OPEN, b.worst);
    let d = part::mark(
        s,
        at[slots::RESPONSE_EXP],
        part::MUST,
        listed::RESPONSE_EXP,
        c.worst,
    );
    let e = part::mark(s, at[slots::DL_ACK], part::MUST, listed::DL_ACK, d.worst);
    let f = part::unkept(s, at[slots::MODE], part::MAY, listed::MODE, e.worst);
    let g = part::table(s, at[slots::SUBPACKETS], listed::UL_DATA_SUBPACKETS, f);
    Held {
        worst: g.max(crossed(d.value.value, c.value.here, c.value.value)),
        value: Body::UlData(record::UlData {
            packet: p.value,
            user_len: a.value,
            format: b.value,
            dl_open: c.value.value,
            response_exp: d.value.value,
            dl_ack: e.value.value,
        }),
    }
}

// responseExp true with dlOpen false is invalid, at responseExp's place, where dlOpen is valid.
#[tactic(auto, unfolding(crate::specs::Code::Read::crossed_by))]
fn crossed(expected: bool, known: bool, opened: bool) -> u16
    ensures { result ≡ crossed_by expected known opened }
{
    if expected & (known & !opened) {
        part::grade_of(Flaw::Invalid, listed::RESPONSE_EXP)
    } else {
        0
    }
}
