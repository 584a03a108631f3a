// The record of a message: its opId, and what its command has behind it. Long bytes are lent beside it, and the record has how many they are.
#![tactic(auto)]

ghost use Rattle.std.specs.Prelude.{◌≡◌};
ghost use Rattle.record.specs.Record.{command_in};

use message::{Maybe, Version};
use names::numbers;

// Sixteen bytes, big endian.
#[derive(Clone, Copy)]
pub struct Sixteen {
    pub high: u64,
    pub low: u64,
}

#[derive(Clone, Copy)]
pub struct Con {
    pub version: Maybe<Version>,
    pub bs_eui: u64,
    pub bidi: bool,
    pub geo_location: Maybe<field::Position>,
    pub sn_bs_uuid: Sixteen,
    pub sn_bs_op_id: Maybe<i64>,
    pub sn_sc_op_id: Maybe<i64>,
}

#[derive(Clone, Copy)]
pub struct ConRsp {
    pub version: Maybe<Version>,
    pub sc_eui: u64,
    pub sn_resume: bool,
    pub sn_sc_uuid: Sixteen,
}

// The message's text is lent.
#[derive(Clone, Copy)]
pub struct StatusRsp {
    pub code: i32,
    pub message_len: u8,
    pub time: u64,
    pub duty_cycle: f64,
    pub geo_location: Maybe<field::Position>,
    pub uptime: Maybe<u64>,
    pub temp: Maybe<f64>,
    pub cpu_load: Maybe<f64>,
    pub mem_load: Maybe<f64>,
}

// What det and ulData tell of a received packet. A profile of no bytes is absent.
#[derive(Clone, Copy)]
pub struct Packet {
    pub ep_eui: u64,
    pub rx_time: u64,
    pub rx_duration: Maybe<u64>,
    pub packet_cnt: u32,
    pub signal: message::Signal,
    pub profile_len: u8,
    pub profile: Sixteen,
}

#[derive(Clone, Copy)]
pub struct Det {
    pub packet: Packet,
    pub sign: u32,
}

#[derive(Clone, Copy)]
pub struct AttPrp {
    pub ep_eui: u64,
    pub bidi: bool,
    pub nwk_sn_key: Sixteen,
    pub sh_addr: u16,
    pub last_packet_cnt: u32,
    pub dual_chan: bool,
    pub repetition: bool,
    pub wide_carr_off: bool,
    pub long_blk_dist: bool,
}

// The user's data are lent.
#[derive(Clone, Copy)]
pub struct UlData {
    pub packet: Packet,
    pub user_len: u8,
    pub format: u8,
    pub dl_open: bool,
    pub response_exp: bool,
    pub dl_ack: bool,
}

// Counters, lengths and data are lent: as many lengths and data as there are entries, and as many counters where they are counter dependent.
#[derive(Clone, Copy)]
pub struct DlDataQue {
    pub ep_eui: u64,
    pub que_id: u64,
    pub cnt_depend: bool,
    pub entries: u8,
    pub format: u8,
    pub prio: f64,
    pub response_exp: Maybe<bool>,
    pub response_prio: Maybe<bool>,
    pub dl_wind_req: Maybe<bool>,
    pub exp_only: Maybe<bool>,
}

// What each command has behind opId. detRsp has its sign, big endian, and detPrp its epEui; fifteen commands have nothing: their number.
#[derive(Clone, Copy)]
pub enum Body {
    Con(Con),
    ConRsp(ConRsp),
    StatusRsp(StatusRsp),
    Det(Det),
    DetRsp(u32),
    AttPrp(AttPrp),
    DetPrp(u64),
    UlData(UlData),
    DlDataQue(DlDataQue),
    Bare(u8),
}

#[derive(Clone, Copy)]
pub struct Message {
    pub op_id: i64,
    pub body: Body,
}

// A record that was read, and how many elements its payload has.
#[derive(Clone, Copy)]
pub struct Counted {
    pub count: usize,
    pub message: Message,
}

// The number of a body's command, by its place in document 01's list of names.
pub fn command_in(b: Body) -> u8
    ensures { result ≡ command_in b }
{
    match b {
        Body::Con(_) => numbers::CON,
        Body::ConRsp(_) => numbers::CON_RSP,
        Body::StatusRsp(_) => numbers::STATUS_RSP,
        Body::Det(_) => numbers::DET,
        Body::DetRsp(_) => numbers::DET_RSP,
        Body::AttPrp(_) => numbers::ATT_PRP,
        Body::DetPrp(_) => numbers::DET_PRP,
        Body::UlData(_) => numbers::UL_DATA,
        Body::DlDataQue(_) => numbers::DL_DATA_QUE,
        Body::Bare(c) => c,
    }
}
