// The downlink queue's calls, on a store where it lies.
ghost use Rattle.std.specs.Prelude.{◌≡◌};
ghost use Rattle.chozukpima.specs.{Messages.Filled, Messages.filled};
ghost use Rattle.chozukpima.specs.Queues.{add_returns, cancel_returns, choose_returns, sound_answer};

// Takes the lowest free place for a downlink; 15, 27, 28.
#[unsafe(no_mangle)]
pub extern "C" fn chz_add(store: &mut [u8], message: &[u8], lent: &[u8]) -> u64
    ensures { ◌≡◌ {A = Filled} (filled result store.new) (add_returns store.old message.now lent.now) }
{
    chozukpima::downlinks::chz_add(store, message, lent)
}

// Frees the place of a queue ID; 15, 29.
#[unsafe(no_mangle)]
pub extern "C" fn chz_cancel(store: &mut [u8], id: u64) -> u64
    ensures { ◌≡◌ {A = Filled} (filled result store.new) (cancel_returns store.old id) }
{
    chozukpima::downlinks::chz_cancel(store, id)
}

// The best suitable entry, which is removed, and where its data stand; 15, 30.
#[unsafe(no_mangle)]
pub extern "C" fn chz_choose(store: &mut [u8], meter: u64, counter: u32, expected: u8) -> u64
    ensures { ◌≡◌ {A = Filled} (filled result store.new) (choose_returns store.old meter counter expected) }
{
    chozukpima::downlinks::chz_choose(store, meter, counter, expected)
}

// Whether the bytes are a queue that calls made from an empty one: 1 or 0.
#[unsafe(no_mangle)]
pub extern "C" fn chz_sound(store: &[u8]) -> u64
    ensures { result ≡ sound_answer store.now }
{
    chozukpima::downlinks::chz_sound(store)
}
