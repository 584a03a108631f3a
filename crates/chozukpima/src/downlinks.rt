// The downlink queue's calls, on a store where it lies.
ghost use Rattle.std.specs.Prelude.{◌≡◌};
ghost use Rattle.chozukpima.specs.{Messages.Filled, Messages.filled};
ghost use Rattle.chozukpima.specs.Queues.{chosen_value, add_returns, cancel_returns, choose_returns, sound_answer};

use crate::answer::{pack, refuse, value_answer};
use queue::Chosen;
use refusal::Refusal;

// A chosen entry's place, how long its data are and where they begin, each in its own bits.
fn chosen_value(c: Chosen) -> usize
    ensures { result ≡ chosen_value c }
{
    usize::from(c.place) + (256 * usize::from(c.size) + 65536 * usize::from(c.from))
}

// Takes the lowest free place for a downlink; 15, 27, 28.
#[tactic(auto, unfolding(crate::specs::Queues::add_returns))]
pub fn chz_add(store: &mut [u8], message: &[u8], lent: &[u8]) -> u64
    ensures { ◌≡◌ {A = Filled} (filled result store.new) (add_returns store.old message.now lent.now) }
{
    if message.len() != layout::SIZE {
        return refuse(Refusal::Invalid);
    }
    value_answer(queue::add(store, layout::message_in(message), lent).map(usize::from))
}

// Frees the place of a queue ID; 15, 29.
pub fn chz_cancel(store: &mut [u8], id: u64) -> u64
    ensures { ◌≡◌ {A = Filled} (filled result store.new) (cancel_returns store.old id) }
{
    value_answer(queue::cancel(store, id).map(usize::from))
}

// The best suitable entry, which is removed, and where its data stand; 15, 30.
pub fn chz_choose(store: &mut [u8], meter: u64, counter: u32, expected: u8) -> u64
    ensures { ◌≡◌ {A = Filled} (filled result store.new) (choose_returns store.old meter counter expected) }
{
    value_answer(queue::choose(store, meter, counter, expected != 0).map(chosen_value))
}

// Whether the bytes are a queue that calls made from an empty one: 1 or 0.
pub fn chz_sound(store: &[u8]) -> u64
    ensures { result ≡ sound_answer store.now }
{
    if queue::is_sound(store) {
        return pack(0, 0, 1);
    }
    pack(0, 0, 0)
}
