// Walks over the places.
ghost use Rattle.std.specs.Prelude.{◌≡◌, ◌<◌, length, IfSome};
ghost use Rattle.queue.specs.Entry.{is_suitable, goes_before};
ghost use Rattle.queue.specs.Queue.{has_id, is_free, place_of_id, free_place, chosen};
ghost use Rattle.queue.specs.Store.{store_size, slot_at, entry_in, queue_at};
ghost use Rattle.queue.specs.Code.Slots.{passing, entry_at, found_from, better_of};

use crate::store;
use crate::store::{SLOTS, Store, Wanted, slot};

// The place of a queue ID.
pub fn place_of_id(q: &Store, id: u64) -> Option<usize>
    ensures { result ≡ place_of_id id (queue_at q.now) }
{
    (0..SLOTS).find(
        |&i|
            requires { i < 32 }
        { store::has_id(slot(q, i), id) },
    )
}

// The lowest free place.
pub fn free_place(q: &Store) -> Option<usize>
    ensures { result ≡ free_place (queue_at q.now) }
{
    (0..SLOTS).find(
        |&i|
            requires { i < 32 }
        { !store::is_used(slot(q, i)) },
    )
}

// Of the i-th place and the best behind it, the better.
#[tactic(auto, using(crate::proofs::Best::bests))]
fn better_of(q: &Store, i: usize, best: Option<usize>, wanted: Wanted) -> Option<usize>
    requires { (i < 32) × IfSome best (λ b. b < 32) }
    ensures { result ≡ better_of (is_suitable wanted.eui wanted.counter wanted.expected) q.now i best }
{
    if !store::suits(slot(q, i), wanted) {
        return best;
    }
    match best {
        Some(b) => {
            if store::goes_before(slot(q, b), slot(q, i)) {
                best
            } else {
                Some(i)
            }
        }
        None => Some(i),
    }
}

// The place of the entry that goes before all others that are suitable. Of two that are equal the first is left, so the walk begins at the last.
#[tactic(auto, using(crate::proofs::Best::bests))]
pub fn best(q: &Store, wanted: Wanted) -> Option<usize>
    ensures { result ≡ found_from 0 (chosen wanted.eui wanted.counter wanted.expected (queue_at q.now)) }
{
    let mut best = None;
    for i in (0..SLOTS).rev() {
        best = better_of(q, i, best, wanted);
    }
    best
}
