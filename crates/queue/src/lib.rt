// The downlink queue of a station, in lent memory: 32 places, each a record of dlDataQue and its lent bytes. No call has a requirement.
#![tactic(auto)]

mod lookup;
mod rank;
mod sound;
mod store;

ghost use Rattle.std.specs.Prelude.{◌≡◌, ◌+◌, ◌*◌, ◌≤◌, ◌<◌, ℕ, length, take};
ghost use Rattle.octets.specs.Bytes.{put_at};
ghost use Rattle.record.specs.declared.Body.{Body};
ghost use Rattle.layout.specs.Image.{message_size, message_image};
ghost use Rattle.queue.specs.Entry.{piece_for};
ghost use Rattle.queue.specs.Store.{slot_size, store_size, slot_at, is_sound};
ghost use Rattle.queue.specs.declared.Chosen.{Chosen};
ghost use Rattle.queue.specs.Calls.{Queued, queued, shown_at, freed_at, adds, cancels, chooses};
ghost use Rattle.queue.specs.Code.Slots.{entry_at, adds_fit};

use record::{Body, DlDataQue, Message};
use refusal::Refusal;
use store::{SIZE, Store, Wanted, slot};

// The command of a place that is free.
const FREE: u8 = 0;

// Of an entry that is chosen its place, and where its data stand behind its record.
#[derive(Clone, Copy, Debug, PartialEq, Eq)]
pub struct Chosen {
    pub place: u8,
    pub from: u16,
    pub size: u8,
}

// A record that may be written is put at the lowest free place, which is told, with the bytes that it says are lent: 15, 27, 28.
#[tactic(auto, using(crate::proofs::Adding::commands))]
pub fn add(q: &mut [u8], m: Message, d: &[u8]) -> Result<u8, Refusal>
    ensures { ◌≡◌ {A = Queued ℕ} (queued result q.new) (adds q.old m d.now) }
{
    let Some(q) = q.as_mut_array::<SIZE>() else {
        return Err(Refusal::Invalid);
    };
    let b = m.body;
    match b {
        Body::DlDataQue(x) => add_downlink(q, m, x, d),
        _ => Err(Refusal::Invalid),
    }
}

#[tactic(auto, using(crate::proofs::Adding::downlinks))]
fn add_downlink(q: &mut Store, m: Message, x: DlDataQue, d: &[u8]) -> Result<u8, Refusal>
    requires { m.body ≡ Body.DlDataQue x }
    ensures { ◌≡◌ {A = Queued ℕ} (queued result q.new) (adds_fit q.old m x d.now) }
{
    if faults::fault(m, d) != 0 {
        return Err(Refusal::Invalid);
    }
    let there = lookup::place_of_id(q, x.que_id).is_some();
    let free = lookup::free_place(q);
    if there {
        return Err(Refusal::QueueIdThere);
    }
    let Some(i) = free else {
        return Err(Refusal::QueueFull);
    };
    let n = store::PIECES + store::length_of(d, usize::from(x.entries));
    put_entry(q, i, m.op_id, x, d, n);
    Ok(i as u8)
}

fn put_entry(q: &mut Store, i: usize, id: i64, x: DlDataQue, d: &[u8], n: usize)
    requires { (i < 32) × (n ≤ length d.now) }
    ensures { q.new ≡ put_at (put_at q.old (slot_size * i) (message_image (record { op_id = id; body = Body.DlDataQue x }))) (slot_size * i + message_size) (take n d.now) }
{
    let at = store::SLOT * i;
    let lent = at + store::LENT;
    layout::put_downlink(&mut q[at..lent], id, x);
    forms::put_run(q, lent, &d[..n]);
}

// The entry of a queue ID is removed from its place, which is told: 29.
#[tactic(auto, using(crate::proofs::Calling::calls))]
pub fn cancel(q: &mut [u8], id: u64) -> Result<u8, Refusal>
    ensures { ◌≡◌ {A = Queued ℕ} (queued result q.new) (cancels q.old id) }
{
    let Some(q) = q.as_mut_array::<SIZE>() else {
        return Err(Refusal::Invalid);
    };
    let Some(i) = lookup::place_of_id(q, id) else {
        return Err(Refusal::NoQueueId);
    };
    free(q, i);
    Ok(i as u8)
}

// The entry to send is removed, and what the answer shows still stands there: 30.
#[tactic(auto, using(crate::proofs::Calling::calls))]
pub fn choose(q: &mut [u8], eui: u64, counter: u32, expected: bool) -> Result<Chosen, Refusal>
    ensures { ◌≡◌ {A = Queued Chosen} (queued result q.new) (chooses q.old eui counter expected) }
{
    let Some(q) = q.as_mut_array::<SIZE>() else {
        return Err(Refusal::Invalid);
    };
    let wanted = Wanted {
        eui,
        counter,
        expected,
    };
    let Some(i) = lookup::best(q, wanted) else {
        return Err(Refusal::NothingSuitable);
    };
    let shown = store::shown(slot(q, i), i, counter);
    free(q, i);
    Ok(shown)
}

// Whether the store is as calls leave it, from an empty one on: records that may be written, and unique queue IDs.
pub fn is_sound(q: &[u8]) -> bool
    ensures { result ≡ is_sound q.now }
{
    q.as_array::<SIZE>().is_some_and(sound::are_sound)
}

// By its command alone: what stands there still stands.
#[tactic(auto, using(crate::proofs::Calling::calls))]
fn free(q: &mut Store, i: usize)
    requires { i < 32 }
    ensures { q.new ≡ freed_at q.old i }
{
    q[store::SLOT * i + store::COMMAND] = FREE;
}
