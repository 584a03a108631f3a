// det and ulData, whose data are lent. What is told of the packet is the same in both.
ghost use mathlib.Core.{Path.◌≡◌, List.[]};
ghost use Rattle.forms.specs.Code.Put.{Put, put, put_parts};
ghost use Rattle.record.specs.declared.Body.{Body};
ghost use Rattle.writer.specs.Code.Parts.{times_parts, signal_parts, packet_parts, answer_parts, body_parts};

use crate::head::{count, title};
use crate::pair;
use record::Packet;

pub fn det(room: &mut [u8], at: usize, op_id: i64, x: record::Det) -> usize
    ensures { ◌≡◌ {A = Put} (put room.new result) (put_parts (body_parts op_id (Body.Det x) []) (put room.old at)) }
{
    let p = x.packet;
    let n = count(
        8,
        p.rx_duration.here,
        p.signal.eq_snr.here,
        p.profile_len != 0,
        false,
        false,
    );
    let a = title(room, at, n, b"\xA7command\xA3det\xA4opId", op_id);
    let b = packet(room, a, p);
    pair::four(room, b, b"\xA4sign", x.sign)
}

pub fn ul_data(room: &mut [u8], at: usize, op_id: i64, x: record::UlData, d: &[u8]) -> usize
    ensures { ◌≡◌ {A = Put} (put room.new result) (put_parts (body_parts op_id (Body.UlData x) d.now) (put room.old at)) }
{
    let p = x.packet;
    let n = count(
        11,
        p.rx_duration.here,
        p.signal.eq_snr.here,
        p.profile_len != 0,
        x.format != 0,
        false,
    );
    let a = title(room, at, n, b"\xA7command\xA6ulData\xA4opId", op_id);
    let b = packet(room, a, p);
    let c = pair::octets(room, b, b"\xA8userData", d, x.user_len);
    answer(room, c, x.format, x.dl_open, x.response_exp, x.dl_ack)
}

#[tactic(auto, using(crate::proofs::Putting::chains), unfolding(crate::specs::Code::Parts::packet_parts))]
fn packet(room: &mut [u8], at: usize, p: Packet) -> usize
    ensures { ◌≡◌ {A = Put} (put room.new result) (put_parts (packet_parts p) (put room.old at)) }
{
    let s = p.signal;
    let t = p.profile;
    let a = times(room, at, p);
    let b = signal(room, a, s);
    pair::profile(room, b, p.profile_len, t)
}

fn times(room: &mut [u8], at: usize, p: Packet) -> usize
    ensures { ◌≡◌ {A = Put} (put room.new result) (put_parts (times_parts p) (put room.old at)) }
{
    let a = pair::field(room, at, true, b"\xA5epEui", p.ep_eui);
    let b = pair::field(room, a, true, b"\xA6rxTime", p.rx_time);
    let c = pair::maybe(room, b, b"\xAArxDuration", p.rx_duration);
    pair::field(room, c, true, b"\xA9packetCnt", p.packet_cnt)
}

#[tactic(auto, using(crate::proofs::Putting::chains), unfolding(crate::specs::Code::Parts::signal_parts))]
fn signal(room: &mut [u8], at: usize, s: message::Signal) -> usize
    ensures { ◌≡◌ {A = Put} (put room.new result) (put_parts (signal_parts s) (put room.old at)) }
{
    let a = pair::field(room, at, true, b"\xA3snr", s.snr);
    let b = pair::field(room, a, true, b"\xA4rssi", s.rssi);
    pair::maybe(room, b, b"\xA5eqSnr", s.eq_snr)
}

// A format of 0 isn't written.
fn answer(room: &mut [u8], at: usize, format: u8, window: bool, expected: bool, ack: bool) -> usize
    ensures { ◌≡◌ {A = Put} (put room.new result) (put_parts (answer_parts format window expected ack) (put room.old at)) }
{
    let a = pair::field(room, at, format != 0, b"\xA6format", format);
    let b = pair::field(room, a, true, b"\xA6dlOpen", window);
    let c = pair::field(room, b, true, b"\xABresponseExp", expected);
    pair::field(room, c, true, b"\xA5dlAck", ack)
}
