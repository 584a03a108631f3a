// The fields of each command to where they lie. What has no room is not put.
ghost use mathlib.Core.{Path.◌≡◌, List.[]};
ghost use Rattle.std.specs.Prelude.{◌+◌, ◌≤◌, take};
ghost use Rattle.layout.specs.Image.{Stretch, sixteen_lies, version_lies, con_lies, con_rsp_lies, status_rsp_lies, packet_lies, det_lies, att_prp_lies, ul_data_lies, maybe_lies, dl_data_que_lies, lay, laid};

use message::{Maybe, Version};
use record::{Con, StatusRsp};

// A function for each width, so that the lines below name none: `put::<1>(d, 40, u64::from(x.entries))` would be no plainer than `put_small(d, 40, x.entries)`.
pub fn put_small(d: &mut [u8], at: usize, x: u8)
    ensures { d.new ≡ lay (Stretch.number 1 at x) d.old }
{
    octets::put_little(d, at, 1, u64::from(x));
}

fn put_short(d: &mut [u8], at: usize, x: u16)
    ensures { d.new ≡ lay (Stretch.number 2 at x) d.old }
{
    octets::put_little(d, at, 2, u64::from(x));
}

fn put_count(d: &mut [u8], at: usize, x: u32)
    ensures { d.new ≡ lay (Stretch.number 4 at x) d.old }
{
    octets::put_little(d, at, 4, u64::from(x));
}

pub fn put_word(d: &mut [u8], at: usize, x: u64)
    ensures { d.new ≡ lay (Stretch.number 8 at x) d.old }
{
    octets::put_little(d, at, 8, x);
}

pub fn put_four(d: &mut [u8], at: usize, x: u32)
    ensures { d.new ≡ lay (Stretch.high 4 at x) d.old }
{
    octets::put_big(d, at, 4, u64::from(x));
}

pub fn put_id(d: &mut [u8], at: usize, z: i64)
    ensures { d.new ≡ lay (Stretch.signed 8 at z) d.old }
{
    octets::put_little(d, at, 8, octets::bits_of(z));
}

fn put_code(d: &mut [u8], at: usize, z: i32)
    ensures { d.new ≡ lay (Stretch.signed 4 at z) d.old }
{
    octets::put_little(d, at, 4, octets::bits32_of(z));
}

fn put_real(d: &mut [u8], at: usize, x: f64)
    ensures { d.new ≡ lay (Stretch.real at x) d.old }
{
    octets::put_little(d, at, 8, forms::real_bits(x));
}

fn put_mark(d: &mut [u8], at: usize, x: bool)
    ensures { d.new ≡ lay (Stretch.flag at x) d.old }
{
    octets::put_little(d, at, 1, u64::from(x));
}

fn put_sixteen(d: &mut [u8], at: usize, x: record::Sixteen)
    requires { at ≤ 88 }
    ensures { d.new ≡ laid (sixteen_lies at x) d.old }
{
    octets::put_big(d, at, 8, x.high);
    octets::put_big(d, at + 8, 8, x.low);
}

// Two words, three reals and three marks, one behind the other.
fn put_words(d: &mut [u8], at: usize, x: u64, y: u64)
    requires { at ≤ 88 }
    ensures { d.new ≡ lay (Stretch.number 8 (at + 8) y) (lay (Stretch.number 8 at x) d.old) }
{
    put_word(d, at, x);
    put_word(d, at + 8, y);
}

// Reals and marks lie at other distances, so one function for both would be lent the distance and the put: no plainer.
fn put_reals(d: &mut [u8], at: usize, x: f64, y: f64, z: f64)
    requires { at ≤ 80 }
    ensures { d.new ≡ lay (Stretch.real (at + 16) z) (lay (Stretch.real (at + 8) y) (lay (Stretch.real at x) d.old)) }
{
    put_real(d, at, x);
    put_real(d, at + 8, y);
    put_real(d, at + 16, z);
}

fn put_marks(d: &mut [u8], at: usize, x: bool, y: bool, z: bool)
    requires { at ≤ 101 }
    ensures { d.new ≡ lay (Stretch.flag (at + 2) z) (lay (Stretch.flag (at + 1) y) (lay (Stretch.flag at x) d.old)) }
{
    put_mark(d, at, x);
    put_mark(d, at + 1, y);
    put_mark(d, at + 2, z);
}

// Whether a mark is there, and the mark.
fn put_maybe(d: &mut [u8], at: usize, w: Maybe<bool>)
    requires { at ≤ 102 }
    ensures { d.new ≡ laid (maybe_lies at w []) d.old }
{
    put_mark(d, at, w.here);
    put_mark(d, at + 1, w.value);
}

fn put_version(d: &mut [u8], at: usize, v: Maybe<Version>)
    requires { at ≤ 97 }
    ensures { d.new ≡ laid (version_lies at v) d.old }
{
    put_short(d, at, v.value.major);
    put_short(d, at + 2, v.value.minor);
    put_short(d, at + 4, v.value.patch);
    put_mark(d, at + 6, v.here);
}

fn put_con_numbers(d: &mut [u8], x: Con)
    ensures { d.new ≡ laid (take 6 (con_lies x)) d.old }
{
    put_word(d, 16, x.bs_eui);
    put_id(d, 24, x.sn_bs_op_id.value);
    put_id(d, 32, x.sn_sc_op_id.value);
    put_reals(
        d,
        40,
        x.geo_location.value.latitude,
        x.geo_location.value.longitude,
        x.geo_location.value.altitude,
    );
}

pub fn put_con(d: &mut [u8], x: Con)
    ensures { d.new ≡ laid (con_lies x) d.old }
{
    let uuid = x.sn_bs_uuid;
    let version = x.version;
    put_con_numbers(d, x);
    put_sixteen(d, 64, uuid);
    put_version(d, 80, version);
    put_marks(d, 87, x.bidi, x.geo_location.here, x.sn_bs_op_id.here);
    put_mark(d, 90, x.sn_sc_op_id.here);
}

pub fn put_con_rsp(d: &mut [u8], x: record::ConRsp)
    ensures { d.new ≡ laid (con_rsp_lies x) d.old }
{
    let uuid = x.sn_sc_uuid;
    let version = x.version;
    put_word(d, 16, x.sc_eui);
    put_sixteen(d, 24, uuid);
    put_version(d, 40, version);
    put_mark(d, 47, x.sn_resume);
}

fn put_status_numbers(d: &mut [u8], x: StatusRsp)
    ensures { d.new ≡ laid (take 9 (status_rsp_lies x)) d.old }
{
    put_words(d, 16, x.time, x.uptime.value);
    put_real(d, 32, x.duty_cycle);
    put_reals(
        d,
        40,
        x.geo_location.value.latitude,
        x.geo_location.value.longitude,
        x.geo_location.value.altitude,
    );
    put_reals(d, 64, x.temp.value, x.cpu_load.value, x.mem_load.value);
}

pub fn put_status_rsp(d: &mut [u8], x: StatusRsp)
    ensures { d.new ≡ laid (status_rsp_lies x) d.old }
{
    put_status_numbers(d, x);
    put_code(d, 88, x.code);
    put_small(d, 92, x.message_len);
    put_marks(d, 93, x.geo_location.here, x.uptime.here, x.temp.here);
    put_mark(d, 96, x.cpu_load.here);
    put_mark(d, 97, x.mem_load.here);
}

fn put_packet(d: &mut [u8], p: record::Packet)
    ensures { d.new ≡ laid (packet_lies p) d.old }
{
    let profile = p.profile;
    put_words(d, 16, p.ep_eui, p.rx_time);
    put_word(d, 32, p.rx_duration.value);
    put_reals(d, 40, p.signal.snr, p.signal.rssi, p.signal.eq_snr.value);
    put_sixteen(d, 64, profile);
    put_count(d, 80, p.packet_cnt);
    put_small(d, 84, p.profile_len);
    put_mark(d, 85, p.rx_duration.here);
    put_mark(d, 86, p.signal.eq_snr.here);
}

pub fn put_det(d: &mut [u8], x: record::Det)
    ensures { d.new ≡ laid (det_lies x) d.old }
{
    let p = x.packet;
    put_packet(d, p);
    put_four(d, 88, x.sign);
}

pub fn put_att_prp(d: &mut [u8], x: record::AttPrp)
    ensures { d.new ≡ laid (att_prp_lies x) d.old }
{
    let key = x.nwk_sn_key;
    put_word(d, 16, x.ep_eui);
    put_sixteen(d, 24, key);
    put_count(d, 40, x.last_packet_cnt);
    put_short(d, 44, x.sh_addr);
    put_marks(d, 46, x.bidi, x.dual_chan, x.repetition);
    put_mark(d, 49, x.wide_carr_off);
    put_mark(d, 50, x.long_blk_dist);
}

pub fn put_ul_data(d: &mut [u8], x: record::UlData)
    ensures { d.new ≡ laid (ul_data_lies x) d.old }
{
    let p = x.packet;
    put_packet(d, p);
    put_small(d, 88, x.user_len);
    put_small(d, 89, x.format);
    put_marks(d, 90, x.dl_open, x.response_exp, x.dl_ack);
}

pub fn put_dl_data_que(d: &mut [u8], x: record::DlDataQue)
    ensures { d.new ≡ laid (dl_data_que_lies x) d.old }
{
    let response_exp = x.response_exp;
    let response_prio = x.response_prio;
    let dl_wind_req = x.dl_wind_req;
    let exp_only = x.exp_only;
    put_words(d, 16, x.ep_eui, x.que_id);
    put_real(d, 32, x.prio);
    put_small(d, 40, x.entries);
    put_small(d, 41, x.format);
    put_mark(d, 42, x.cnt_depend);
    put_maybe(d, 43, response_exp);
    put_maybe(d, 45, response_prio);
    put_maybe(d, 47, dl_wind_req);
    put_maybe(d, 49, exp_only);
}
