// Writing a record as a whole frame.
#![tactic(auto)]

mod connect;
mod downlink;
mod head;
mod pair;
mod payload;
mod propagate;
mod received;
mod status;

ghost use mathlib.Core.{Path.◌≡◌, Bool.true, List.[]};
ghost use Rattle.std.specs.Prelude.{◌≤◌};
ghost use Rattle.record.specs.{Fits.fits, Written.frame_for, Code.Most.frame_most};
ghost use Rattle.writer.specs.Code.Parts.{with_head};
ghost use Rattle.writer.specs.Write.{Sent, sent, framed, written};

use frame::HEAD;
use payload::{payload, reply_payload};
use record::Message;
use refusal::Refusal;

// So many bytes have place for any frame, and for any that a session replies with.
pub const MOST_FRAME: usize = 1909;

pub const MOST_REPLY: usize = 145;

// A record with the bytes d that are lent beside it, as a whole frame at the start of the room: its length; the rest of the room stays. A record outside its
// ranges is refused with 15, then a room shorter than the frame with 20, and the room is as it was. Any contents may be handed in.
#[tactic(auto, using(crate::proofs::Framing::writes))]
pub fn write(m: Message, d: &[u8], room: &mut [u8]) -> Result<usize, Refusal>
    ensures { ◌≡◌ {A = Sent} (sent result room.new) (written m d.now room.old) }
{
    if faults::fault(m, d) != 0 {
        return Err(Refusal::Invalid);
    }
    put(m, d, room)
}

// A record that is known to fit, as a whole frame at the start of the room; 20 where the room is shorter.
pub fn put(m: Message, d: &[u8], room: &mut [u8]) -> Result<usize, Refusal>
    requires { true ≡ fits m d.now }
    ensures { ◌≡◌ {A = Sent} (sent result room.new) (framed (frame_for m d.now) room.old) }
{
    if room.len() < MOST_FRAME {
        return put_short(m, d, room);
    }
    let end = payload(room, HEAD, m, d);
    frame(room, end);
    Ok(end)
}

// In a room that may be too short: the frame is made elsewhere first.
fn put_short(m: Message, d: &[u8], room: &mut [u8]) -> Result<usize, Refusal>
    requires { true ≡ fits m d.now }
    ensures { ◌≡◌ {A = Sent} (sent result room.new) (framed (frame_for m d.now) room.old) }
{
    let mut made = [0u8; MOST_FRAME];
    let end = payload(&mut made, HEAD, m, d);
    frame(&mut made, end);
    deliver(&made[..end], room)
}

// The same of a record that a session replies with. Its frame is short, so it is made elsewhere in every room.
pub fn reply(m: Message, room: &mut [u8]) -> Result<usize, Refusal>
    requires { (true ≡ fits m []) × (frame_most m.body ≤ 145) }
    ensures { ◌≡◌ {A = Sent} (sent result room.new) (framed (frame_for m []) room.old) }
{
    let mut made = [0u8; MOST_REPLY];
    let end = reply_payload(&mut made, HEAD, m);
    frame(&mut made, end);
    deliver(&made[..end], room)
}

// A frame that is made, where it has place.
fn deliver(made: &[u8], room: &mut [u8]) -> Result<usize, Refusal>
    ensures { ◌≡◌ {A = Sent} (sent result room.new) (framed made.now room.old) }
{
    let size = made.len();
    if room.len() < size {
        return Err(Refusal::RoomTooShort);
    }
    forms::put_run(room, 0, made);
    Ok(size)
}

// The 12 bytes in front of a payload that ends at a place.
#[tactic(auto, using(crate::proofs::Framing::head_put))]
fn frame(room: &mut [u8], end: usize)
    requires { 12 ≤ end }
    ensures { room.new ≡ with_head room.old end }
{
    octets::put_big(room, 0, 8, frame::IDENTIFIER);
    octets::put_little(room, 8, 4, (end - HEAD) as u64);
}
