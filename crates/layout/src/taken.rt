// The fields of each command from where they lie. Any bytes may be handed in.
ghost use Rattle.std.specs.Prelude.{◌≡◌, ◌+◌, ◌≤◌};
ghost use Rattle.layout.specs.Taken.{places, marks_of, number_at, high_at, signed_at, real_at, flag_at, are_marks, sixteen_at, position_at, version_at, con_at, con_rsp_at, status_rsp_at, signal_at, packet_at, det_at, att_prp_at, ul_data_at, maybe_mark_at, dl_data_que_at};

use crate::leaf::real_from;
use field::Position;
use message::{Maybe, Signal, Version};
use names::numbers;
use record::{AttPrp, Con, ConRsp, Det, DlDataQue, Packet, Sixteen, StatusRsp, UlData};

// A function for each width, as where they are put: each narrows by its type, which one function for all would leave to its callers.
fn byte(d: &[u8], at: usize) -> u8
    ensures { result ≡ number_at d.now 1 at }
{
    octets::little_at(d, at, 1) as u8
}

fn is_set(d: &[u8], at: usize) -> bool
    ensures { result ≡ flag_at d.now at }
{
    byte(d, at) != 0
}

fn short(d: &[u8], at: usize) -> u16
    ensures { result ≡ number_at d.now 2 at }
{
    octets::little_at(d, at, 2) as u16
}

fn count(d: &[u8], at: usize) -> u32
    ensures { result ≡ number_at d.now 4 at }
{
    octets::little_at(d, at, 4) as u32
}

pub fn word(d: &[u8], at: usize) -> u64
    ensures { result ≡ number_at d.now 8 at }
{
    octets::little_at(d, at, 8)
}

pub fn four(d: &[u8], at: usize) -> u32
    ensures { result ≡ high_at d.now 4 at }
{
    octets::big_at(d, at, 4) as u32
}

fn id(d: &[u8], at: usize) -> i64
    ensures { result ≡ signed_at d.now 8 at }
{
    octets::signed_of(word(d, at))
}

fn code(d: &[u8], at: usize) -> i32
    ensures { result ≡ signed_at d.now 4 at }
{
    octets::signed32_of(count(d, at))
}

fn figure(d: &[u8], at: usize) -> f64
    ensures { result ≡ real_at d.now at }
{
    real_from(word(d, at))
}

fn sixteen(d: &[u8], at: usize) -> Sixteen
    requires { at ≤ 88 }
    ensures { result ≡ sixteen_at d.now at }
{
    Sixteen {
        high: octets::big_at(d, at, 8),
        low: octets::big_at(d, at + 8, 8),
    }
}

fn position(d: &[u8]) -> Position
    ensures { result ≡ position_at d.now 40 }
{
    Position {
        latitude: figure(d, 40),
        longitude: figure(d, 48),
        altitude: figure(d, 56),
    }
}

fn version(d: &[u8], at: usize) -> Maybe<Version>
    requires { at ≤ 97 }
    ensures { result ≡ version_at d.now at }
{
    Maybe {
        here: is_set(d, at + 6),
        value: Version {
            major: short(d, at),
            minor: short(d, at + 2),
            patch: short(d, at + 4),
        },
    }
}

pub fn con_in(d: &[u8]) -> Con
    ensures { result ≡ con_at d.now }
{
    Con {
        version: version(d, 80),
        bs_eui: word(d, 16),
        bidi: is_set(d, 87),
        geo_location: Maybe {
            here: is_set(d, 88),
            value: position(d),
        },
        sn_bs_uuid: sixteen(d, 64),
        sn_bs_op_id: Maybe {
            here: is_set(d, 89),
            value: id(d, 24),
        },
        sn_sc_op_id: Maybe {
            here: is_set(d, 90),
            value: id(d, 32),
        },
    }
}

pub fn con_rsp_in(d: &[u8]) -> ConRsp
    ensures { result ≡ con_rsp_at d.now }
{
    ConRsp {
        version: version(d, 40),
        sc_eui: word(d, 16),
        sn_resume: is_set(d, 47),
        sn_sc_uuid: sixteen(d, 24),
    }
}

pub fn status_rsp_in(d: &[u8]) -> StatusRsp
    ensures { result ≡ status_rsp_at d.now }
{
    StatusRsp {
        code: code(d, 88),
        message_len: byte(d, 92),
        time: word(d, 16),
        duty_cycle: figure(d, 32),
        geo_location: Maybe {
            here: is_set(d, 93),
            value: position(d),
        },
        uptime: Maybe {
            here: is_set(d, 94),
            value: word(d, 24),
        },
        temp: Maybe {
            here: is_set(d, 95),
            value: figure(d, 64),
        },
        cpu_load: Maybe {
            here: is_set(d, 96),
            value: figure(d, 72),
        },
        mem_load: Maybe {
            here: is_set(d, 97),
            value: figure(d, 80),
        },
    }
}

fn signal_in(d: &[u8]) -> Signal
    ensures { result ≡ signal_at d.now }
{
    Signal {
        snr: figure(d, 40),
        rssi: figure(d, 48),
        eq_snr: Maybe {
            here: is_set(d, 86),
            value: figure(d, 56),
        },
    }
}

fn packet_in(d: &[u8]) -> Packet
    ensures { result ≡ packet_at d.now }
{
    Packet {
        ep_eui: word(d, 16),
        rx_time: word(d, 24),
        rx_duration: Maybe {
            here: is_set(d, 85),
            value: word(d, 32),
        },
        packet_cnt: count(d, 80),
        signal: signal_in(d),
        profile_len: byte(d, 84),
        profile: sixteen(d, 64),
    }
}

pub fn det_in(d: &[u8]) -> Det
    ensures { result ≡ det_at d.now }
{
    Det {
        packet: packet_in(d),
        sign: four(d, 88),
    }
}

pub fn att_prp_in(d: &[u8]) -> AttPrp
    ensures { result ≡ att_prp_at d.now }
{
    AttPrp {
        ep_eui: word(d, 16),
        bidi: is_set(d, 46),
        nwk_sn_key: sixteen(d, 24),
        sh_addr: short(d, 44),
        last_packet_cnt: count(d, 40),
        dual_chan: is_set(d, 47),
        repetition: is_set(d, 48),
        wide_carr_off: is_set(d, 49),
        long_blk_dist: is_set(d, 50),
    }
}

pub fn ul_data_in(d: &[u8]) -> UlData
    ensures { result ≡ ul_data_at d.now }
{
    UlData {
        packet: packet_in(d),
        user_len: byte(d, 88),
        format: byte(d, 89),
        dl_open: is_set(d, 90),
        response_exp: is_set(d, 91),
        dl_ack: is_set(d, 92),
    }
}

fn maybe_mark(d: &[u8], at: usize) -> Maybe<bool>
    requires { at ≤ 102 }
    ensures { result ≡ maybe_mark_at d.now at }
{
    Maybe {
        here: is_set(d, at),
        value: is_set(d, at + 1),
    }
}

pub fn dl_data_que_in(d: &[u8]) -> DlDataQue
    ensures { result ≡ dl_data_que_at d.now }
{
    DlDataQue {
        ep_eui: word(d, 16),
        que_id: word(d, 24),
        cnt_depend: is_set(d, 42),
        entries: byte(d, 40),
        format: byte(d, 41),
        prio: figure(d, 32),
        response_exp: maybe_mark(d, 43),
        response_prio: maybe_mark(d, 45),
        dl_wind_req: maybe_mark(d, 47),
        exp_only: maybe_mark(d, 49),
    }
}

// Each of n bytes is 0 or 1.
fn are_marks(d: &[u8], at: usize, n: usize) -> bool
    requires { at + n ≤ 104 }
    ensures { result ≡ are_marks d.now (places at n) }
{
    let mut ok = true;
    for i in 0..n {
        ok = ok & (byte(d, at + i) < 2);
    }
    ok
}

// The marks of a command are 0 or 1.
fn is_marked(d: &[u8], c: u8) -> bool
    ensures { result ≡ are_marks d.now (marks_of c) }
{
    match c {
        numbers::CON => are_marks(d, 86, 5),
        numbers::CON_RSP => are_marks(d, 46, 2),
        numbers::STATUS_RSP => are_marks(d, 93, 5),
        numbers::DET => are_marks(d, 85, 2),
        numbers::DET_RSP => true,
        numbers::ATT_PRP => are_marks(d, 46, 5),
        numbers::DET_PRP => true,
        numbers::UL_DATA => are_marks(d, 85, 2) & are_marks(d, 90, 3),
        numbers::DL_DATA_QUE => are_marks(d, 42, 9),
        numbers::CON_CMP..=255 => true,
    }
}

// What each command has, and whether its marks are 0 or 1. Where they are not, ID and command stand all the same, so no `Option` holds them.
#[derive(Clone, Copy)]
pub struct Head {
    pub op_id: i64,
    pub command: u8,
    pub marked: bool,
}

pub fn head_in(d: &[u8]) -> Head
    ensures id { result.op_id ≡ signed_at d.now 8 0 }
    ensures command { result.command ≡ number_at d.now 1 8 }
    ensures marked { result.marked ≡ are_marks d.now (marks_of result.command) }
{
    let c = byte(d, 8);
    Head {
        op_id: id(d, 0),
        command: c,
        marked: is_marked(d, c),
    }
}
