// Whether a store is as calls leave it.
ghost use mathlib.Core.{Path.◌≡◌, Bool.◌&&◌};
ghost use Rattle.std.specs.Prelude.{◌+◌, ◌<◌, length};
ghost use Rattle.layout.specs.Taken.{number_at};
ghost use Rattle.queue.specs.Queue.{is_unlike, are_unlike};
ghost use Rattle.queue.specs.Store.{slot_size, store_size, slot_at, entry_in, queue_at, is_whole, are_whole};
ghost use Rattle.queue.specs.Code.Slots.{left};

use crate::store;
use crate::store::{SLOTS, Slot, Store, slot};

// A record that stands at a place may be written.
fn is_whole(s: &Slot) -> bool
    ensures { result ≡ is_whole s.now }
{
    if !store::is_used(s) {
        return true;
    }
    let m = layout::message_in(s);
    faults::fault(m, &s[store::LENT..]) == 0
}

// No place behind the i-th has its queue ID.
#[tactic(auto, using(crate::proofs::Judged::unlikes))]
fn is_unlike_at(q: &Store, i: usize) -> bool
    requires { i < 32 }
    ensures { result ≡ is_unlike (entry_in (slot_at q.now i)) (left q.now (i + 1)) }
{
    let s = slot(q, i);
    if !store::is_used(s) {
        return true;
    }
    let id = store::id(s);
    for j in i + 1..SLOTS {
        if store::has_id(slot(q, j), id) {
            return false;
        }
    }
    true
}

// All places are whole, and no two have the same queue ID.
#[tactic(auto, using(crate::proofs::Judged::sounds))]
pub fn are_sound(q: &Store) -> bool
    ensures { result ≡ (are_whole q.now 0 32 && are_unlike (queue_at q.now)) }
{
    for i in 0..SLOTS {
        if !is_whole(slot(q, i)) {
            return false;
        }
        if !is_unlike_at(q, i) {
            return false;
        }
    }
    true
}
