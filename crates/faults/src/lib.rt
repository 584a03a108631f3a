// Which of a record's fields may not be written: document 01's 15, with the field's number.
#![tactic(auto)]

mod downlink;
mod part;

ghost use Rattle.std.specs.Prelude.{◌≡◌};
ghost use Rattle.record.specs.Fits.{fault_in};
ghost use Rattle.faults.specs.Code.Tests.{AtOnce, body_fault, con_fault, con_rsp_fault, status_fault, packet_fault, ul_data_fault, bare_fault};

use message::listed;
use names::numbers::{COMMANDS, CON_CMP, DL_DATA_QUE};
pub use part::no_bits;
use record::Body;

// How many bytes the lent fields have at most.
const MOST_MESSAGE: u8 = 64;

const MOST_USER_DATA: u8 = 245;

// No field is at fault.
const NONE: u8 = 0;

// The first of the commands that have no fields of their own.
const FIRST_BARE: u8 = CON_CMP;

// One more than the place of the command's first field at fault, in document 01's order; 0 where none is.
pub fn fault(m: record::Message, d: &[u8]) -> u8
    ensures { result ≡ fault_in m d.now }
{
    let b = m.body;
    match at_once(b) {
        Some(f) => f,
        None => body_fault(b, d),
    }
}

// Most commands that are written are bare. They are told of first and apart, so that nothing else of the record is read.
#[tactic(auto, using(crate::proofs::Bodies::of_name, crate::proofs::Bodies::of_fields))]
fn at_once(b: Body) -> Option<u8>
    ensures { AtOnce b result }
{
    match b {
        Body::Bare(c) => Some(bare_fault(c)),
        _ => None,
    }
}

// Of a body with the bytes d that are lent beside it.
fn body_fault(b: Body, d: &[u8]) -> u8
    ensures { result ≡ body_fault b d.now }
{
    match b {
        Body::Con(x) => con_fault(x),
        Body::ConRsp(x) => con_rsp_fault(x),
        Body::StatusRsp(x) => status_fault(x, d.len()),
        Body::Det(x) => {
            let p = x.packet;
            packet_fault(p)
        }
        Body::DetRsp(_) => NONE,
        Body::AttPrp(_) => NONE,
        Body::DetPrp(_) => NONE,
        Body::UlData(x) => ul_data_fault(x, d.len()),
        Body::DlDataQue(x) => downlink::dl_data_que_fault(x, d),
        Body::Bare(c) => bare_fault(c),
    }
}

// Con's version must be here.
fn con_fault(x: record::Con) -> u8
    ensures { result ≡ con_fault x }
{
    let position = x.geo_location;
    let station = x.sn_bs_op_id;
    let centre = x.sn_sc_op_id;
    if !x.version.here {
        return listed::VERSION + 1;
    }
    if !part::maybe_position(position) {
        return listed::CON_GEO_LOCATION + 1;
    }
    if !part::station_id(station) {
        return listed::SN_BS_OP_ID + 1;
    }
    if !part::centre_id(centre) {
        return listed::SN_SC_OP_ID + 1;
    }
    NONE
}

fn con_rsp_fault(x: record::ConRsp) -> u8
    ensures { result ≡ con_rsp_fault x }
{
    let version = x.version;
    if !part::maybe_version(version) {
        return listed::VERSION + 1;
    }
    NONE
}

fn status_fault(x: record::StatusRsp, lent: usize) -> u8
    ensures { result ≡ status_fault x lent }
{
    let position = x.geo_location;
    let uptime = x.uptime;
    let temp = x.temp;
    let cpu = x.cpu_load;
    let mem = x.mem_load;
    if !part::is_lent(x.message_len, MOST_MESSAGE, lent) {
        return listed::MESSAGE + 1;
    }
    if !part::is_real(x.duty_cycle) {
        return listed::DUTY_CYCLE + 1;
    }
    if !part::maybe_position(position) {
        return listed::STATUS_GEO_LOCATION + 1;
    }
    if !part::maybe_word(uptime) {
        return listed::UPTIME + 1;
    }
    if !part::maybe_real(temp) {
        return listed::TEMP + 1;
    }
    if !part::maybe_real(cpu) {
        return listed::CPU_LOAD + 1;
    }
    if !part::maybe_real(mem) {
        return listed::MEM_LOAD + 1;
    }
    NONE
}

// What det and ulData tell of a packet.
fn packet_fault(p: record::Packet) -> u8
    ensures { result ≡ packet_fault p }
{
    let duration = p.rx_duration;
    let signal = p.signal;
    let profile = p.profile;
    if !part::maybe_word(duration) {
        return listed::RX_DURATION + 1;
    }
    if !part::is_real(signal.snr) {
        return listed::SNR + 1;
    }
    if !part::is_real(signal.rssi) {
        return listed::RSSI + 1;
    }
    if !part::maybe_real(signal.eq_snr) {
        return listed::EQ_SNR + 1;
    }
    if !part::tail(profile, p.profile_len) {
        return listed::PROFILE + 1;
    }
    NONE
}

fn ul_data_fault(x: record::UlData, lent: usize) -> u8
    ensures { result ≡ ul_data_fault x lent }
{
    let p = x.packet;
    let f = packet_fault(p);
    if f != NONE {
        return f;
    }
    if !part::is_lent(x.user_len, MOST_USER_DATA, lent) {
        return listed::USER_DATA + 1;
    }
    let may_respond = !x.response_exp | x.dl_open;
    if !may_respond {
        return listed::RESPONSE_EXP + 1;
    }
    NONE
}

// None of the nine commands that have more is bare.
fn bare_fault(c: u8) -> u8
    ensures { result ≡ bare_fault c }
{
    let bare = (FIRST_BARE <= c) & ((c < COMMANDS) & (c != DL_DATA_QUE));
    if !bare {
        return listed::COMMAND + 1;
    }
    NONE
}
