// Messages where they lie: read from a payload, written as a frame.
ghost use Rattle.std.specs.Prelude.{◌≡◌, length};
ghost use Rattle.layout.specs.Image.{message_size};
ghost use Rattle.chozukpima.specs.Messages.{Filled, filled, told_into, got, ReadInto, Kept, write_returns};
ghost use Rattle.chozukpima.specs.Code.Stands.{Stands};

use crate::answer::{pack, refuse, value_answer};
use record::Counted;
use refusal::{Broken, Refusal};

// A payload into a message and its data: how many elements it has; 3 to 15, with the place for 4 to 10. A message of another length, or too few
// bytes for data, are 15 first.
#[tactic(auto, using(crate::proofs::Calls::reads, crate::proofs::Kept::keeps))]
pub fn chz_read(payload: &[u8], message: &mut [u8], lent: &mut [u8]) -> u64
    ensures is { ReadInto payload.now message.old lent.old (got (filled result message.new) lent.new) }
    ensures fit { Kept result message.new lent.new }
{
    if message.len() != layout::SIZE {
        return refuse(Refusal::Invalid);
    }
    tell(reading::read(payload, lent), message)
}

#[tactic(auto, using(crate::proofs::Kept::keeps), unfolding(crate::specs::Messages::told_into))]
fn tell(told: Result<Counted, Broken>, message: &mut [u8]) -> u64
    requires { length message.old ≡ message_size }
    ensures is { ◌≡◌ {A = Filled} (filled result message.new) (told_into told message.old) }
    ensures fit { Stands told result message.new }
{
    match told {
        Ok(x) => {
            layout::put_message(message, x.message);
            pack(0, 0, x.count)
        }
        Err(broken) => pack(broken.refusal.number(), 0, broken.place),
    }
}

// A message as a whole frame at the start of the room: its length; 15, 20.
#[tactic(auto, using(crate::proofs::Calls::written_told), unfolding(crate::specs::Messages::write_returns))]
pub fn chz_write(message: &[u8], lent: &[u8], room: &mut [u8]) -> u64
    ensures { ◌≡◌ {A = Filled} (filled result room.new) (write_returns message.now lent.now room.old) }
{
    if message.len() != layout::SIZE {
        return refuse(Refusal::Invalid);
    }
    value_answer(writer::write(layout::message_in(message), lent, room))
}
