// Messages where they lie: read from a payload, written as a frame.
ghost use Rattle.std.specs.Prelude.{◌≡◌};
ghost use Rattle.chozukpima.specs.Messages.{Filled, filled, got, ReadInto, Kept, write_returns};

// A payload into a message and its data: how many elements it has; 3 to 15, with the place for 4 to 10. A message of another length, or too few
// bytes for data, are 15 first.
#[unsafe(no_mangle)]
pub extern "C" fn chz_read(payload: &[u8], message: &mut [u8], lent: &mut [u8]) -> u64
    ensures is { ReadInto payload.now message.old lent.old (got (filled result message.new) lent.new) }
    ensures fit { Kept result message.new lent.new }
{
    chozukpima::messages::chz_read(payload, message, lent)
}

// A message as a whole frame at the start of the room: its length; 15, 20.
#[unsafe(no_mangle)]
pub extern "C" fn chz_write(message: &[u8], lent: &[u8], room: &mut [u8]) -> u64
    ensures { ◌≡◌ {A = Filled} (filled result room.new) (write_returns message.now lent.now room.old) }
{
    chozukpima::messages::chz_write(message, lent, room)
}
